// The refusals: why a record, a text or a call is turned away. Each has a number, by one table (specs/Numbers.antt).
#![tactic(auto)]

ghost use Rattle.std.specs.Prelude.{◌≡◌};
ghost use Rattle.refusals.specs.Refusals.{number_of};

/// Why something is turned away. The order is that of the numbers.
#[derive(Clone, Copy, Debug, PartialEq, Eq)]
pub enum Refusal {
    // A text of more than 16,384 bytes.
    Overlong,
    // No token, or a name or a number too long.
    Knot,
    // A token, or the end, that the grammar does not allow there.
    Misplaced,
    // A name not declared above, or not of a kind allowed there.
    Unknown,
    // A name declared again.
    Twice,
    // A number, an index or a width that does not fit.
    Oversize,
    // One more than a limit allows.
    Crowded,
    // More than 256 letters.
    LongRun,
    // A letter whose wire literals no word meets.
    Impossible,
    // A part that may fit no ticks where that is not allowed.
    Hollow,
    // A letter that ends a thread and can be followed inside it.
    OpenEnd,
    // Two letters side by side whose wire literals one word meets.
    Fork,
    // A record cut short, or read past the end.
    Torn,
    // A bit stands and its byte is unchanged.
    IdleByte,
    // A word with a bit above the wires.
    Stray,
    // A tick after a bad one.
    Stopped,
    // A tick after 1,000,000.
    Full,
    // A buffer smaller than what is to be written there.
    ShortBin,
    // A limit's number of ticks that is too large, or no stretch of ticks that is longer.
    Stretch,
    // A production to be limited that is not a single letter.
    NotSingle,
}

impl Refusal {
    /// The number that stands in sheets, answers and documents.
    pub fn number(self) -> u8
        ensures { result ≡ number_of self }
    {
        match self {
            Refusal::Overlong => 1,
            Refusal::Knot => 2,
            Refusal::Misplaced => 3,
            Refusal::Unknown => 4,
            Refusal::Twice => 5,
            Refusal::Oversize => 6,
            Refusal::Crowded => 7,
            Refusal::LongRun => 8,
            Refusal::Impossible => 9,
            Refusal::Hollow => 10,
            Refusal::OpenEnd => 11,
            Refusal::Fork => 12,
            Refusal::Torn => 13,
            Refusal::IdleByte => 14,
            Refusal::Stray => 15,
            Refusal::Stopped => 16,
            Refusal::Full => 17,
            Refusal::ShortBin => 18,
            Refusal::Stretch => 21,
            Refusal::NotSingle => 22,
        }
    }
}
