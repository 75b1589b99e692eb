// Wire records: words, one a tick, as a recorder leaves them. A record is a map byte and then the
// bytes of the word that changed.
#![tactic(auto)]

mod record;
mod whole;

ghost use Rattle.std.specs.Prelude.{◌≡◌};
ghost use Rattle.refusals.specs.Refusals.{number_of};
ghost use Rattle.trace.specs.Record.{written};
ghost use Rattle.trace.specs.Whole.{lend, number_or_zero};
ghost use Rattle.trace.specs.Shown.{shown_trace, place_of, refusal_of};

pub use record::{Record, read_at, read_record, write_record};
use refusals::Refusal;
pub use whole::{count_words, read_trace, trace_length, write_trace};

/// Why records are not read, or not written.
#[derive(Clone, Copy, Debug, PartialEq, Eq)]
pub enum TraceError {
    // The record that begins at this byte is cut short, or the byte is past the end.
    Torn(usize),
    // The record that begins at this byte gives a byte that is unchanged.
    Idle(usize),
    // The lent list or buffer is too short, and as it was.
    Short,
}

impl TraceError {
    /// The refusal that it is, which has a number.
    pub fn refusal(self) -> Refusal
        ensures { result ≡ refusal_of self }
    {
        match self {
            TraceError::Torn(_) => Refusal::Torn,
            TraceError::Idle(_) => Refusal::IdleByte,
            TraceError::Short => Refusal::ShortBin,
        }
    }

    /// The byte that it names, or 0.
    pub fn place(self) -> usize
        ensures { result ≡ place_of self }
    {
        match self {
            TraceError::Torn(at) => at,
            TraceError::Idle(at) => at,
            TraceError::Short => 0,
        }
    }
}

/// The number of words read or of bytes written, or 0 for a refusal, as the entries for C answer.
pub fn or_zero(answer: Result<usize, TraceError>) -> usize
    ensures { result ≡ number_or_zero (shown_trace answer) }
{
    answer.unwrap_or(0)
}

// The C entry: writes the record of a word, and returns its length, or 0 where the range is too
// short for it.
#[unsafe(no_mangle)]
pub extern "C" fn linewatch_write_record(before: u64, word: u64, out: &mut [u8]) -> usize
    ensures { (result ≡ number_or_zero (lend (written before word) out.old).answer) × (out.new ≡ (lend (written before word) out.old).list) }
{
    or_zero(write_record(before, word, out))
}
