// The tokens of a text (docs/REFERENCE.md, T). `token_at` reads the token at a position of a text in which some words are reserved.
// What a token is stands in specs/Tokens.antt, and specs/Shown.antt says what the types here stand for in its terms.
#![tactic(auto)]

ghost use Rattle.std.specs.Prelude.{◌≡◌, ◌&&◌, ℕ, Bool, true, ◌+◌, ◌-◌, ◌*◌, ◌^◌, ◌<◌, ◌≤◌, List, length, get_or, drop, MatchOption};
ghost use Rattle.lexer.specs.Bytes.{bytes, same, lookup, run, is_digit, is_name_byte};
ghost use Rattle.lexer.specs.Classes.{begins, class_of};
ghost use Rattle.lexer.specs.Inner.{Computes, second_byte};
ghost use Rattle.lexer.specs.Tokens.{spelling, entries, rule_words, or_name, knot, name_token, number_token, sign_token, token_at};
ghost use Rattle.lexer.specs.Shown.{sign_number, word_shown, is_reserved, reserved_shown, kind_shown, shown};

mod classes;

use classes::{Class, class_of, is_digit, is_name_byte, is_white};

/// The signs, in the order of T6.
#[derive(Clone, Copy, Debug, PartialEq, Eq)]
pub enum Sign {
    Semicolon,
    Comma,
    At,
    Star,
    Ampersand,
    Bang,
    LeftParen,
    RightParen,
    LeftBracket,
    RightBracket,
    LeftBrace,
    RightBrace,
    Colon,
    Equals,
    DoubleEquals,
    DoubleBar,
    RightArrow,
    LeftArrow,
}

impl Sign {
    /// The sign's number in the order of T6, from 0.
    // no plainer as `From`: the name tells which number it is
    pub fn number(self) -> u8
        ensures { result ≡ sign_number self }
    {
        self as u8
    }

    // The second byte of a sign of two bytes.
    fn second(self) -> Option<u8>
        ensures { result ≡ second_byte self }
    {
        match self {
            Sign::DoubleEquals => Some(b'='),
            Sign::DoubleBar => Some(b'|'),
            Sign::RightArrow => Some(b'>'),
            Sign::LeftArrow => Some(b'-'),
            _ => None,
        }
    }
}

/// The words that can be reserved.
#[derive(Clone, Copy, Debug, PartialEq, Eq)]
pub enum Word {
    Input,
    Internal,
    Define,
    Monitor,
    Past,
    Limit,
    To,
    In,
}

// In the order in which a name is compared with them.
const WORDS: [Word; 8] = [
    Word::Input,
    Word::Internal,
    Word::Define,
    Word::Monitor,
    Word::Past,
    Word::Limit,
    Word::To,
    Word::In,
];

impl Word {
    /// How the word is written.
    pub fn spelling(self) -> &'static str
        ensures { result.now ≡ bytes (spelling (word_shown self)) }
    {
        match self {
            Word::Input => "input",
            Word::Internal => "internal",
            Word::Define => "define",
            Word::Monitor => "monitor",
            Word::Past => "past",
            Word::Limit => "limit",
            Word::To => "to",
            Word::In => "in",
        }
    }
}

/// The list of reserved words that reading is given: those whose flag is set.
#[derive(Clone, Copy, Debug, PartialEq, Eq)]
pub struct Reserved {
    pub input: bool,
    pub internal: bool,
    pub define: bool,
    pub monitor: bool,
    pub past: bool,
    pub limit: bool,
    pub to: bool,
    pub inside: bool,
}

impl Reserved {
    /// Whether the word is in the list.
    pub fn contains(self, word: Word) -> bool
        ensures { result ≡ is_reserved self word }
    {
        match word {
            Word::Input => self.input,
            Word::Internal => self.internal,
            Word::Define => self.define,
            Word::Monitor => self.monitor,
            Word::Past => self.past,
            Word::Limit => self.limit,
            Word::To => self.to,
            Word::In => self.inside,
        }
    }
}

/// What a rule text reserves.
pub fn rule_words() -> Reserved
    ensures { reserved_shown result ≡ rule_words }
{
    Reserved {
        input: true,
        internal: true,
        define: true,
        monitor: true,
        past: true,
        limit: true,
        to: true,
        inside: true,
    }
}

/// What stands at a place.
#[derive(Clone, Copy, Debug, PartialEq, Eq)]
pub enum Kind {
    Name,
    Word(Word),
    Number(u64),
    Sign(Sign),
    End,
    // T7: no token, or a name or number too long.
    Knot,
}

/// A token of a text: its first byte has the place `place`, and its bytes are those from `place` up to `after`.
/// The end and a knot take no byte: `after` is `place`.
#[derive(Clone, Copy, Debug, PartialEq, Eq)]
pub struct Token {
    pub kind: Kind,
    pub place: usize,
    pub after: usize,
}

// The most bytes that a name may have.
const LONGEST_NAME: usize = 16;

/// Whether two slices hold the same bytes.
// kept beside `==`, which is its body: other crates call it
pub fn equal(a: &[u8], b: &[u8]) -> bool
    ensures { result ≡ same a.now b.now }
{
    a == b
}

// Where the run of bytes that pass the test ends that begins at `from`.
fn run_end<P: Fn(u8) -> bool>(text: &[u8], from: usize, passes: P) -> usize
    requires from_in_bounds { from ≤ length text.now }
    requires callable { P.IsAlwaysCallable passes }
    ensures within { (from ≤ result) × (result ≤ length text.now) }
    ensures ends { (test : ℕ → Bool) → Computes (P.post passes) test → result ≡ from + length (run test (drop from text.now)) }
{
    for (i, b) in text[from..].iter().enumerate() {
        if !passes(*b) {
            return from + i;
        }
    }
    text.len()
}

// Whether a word is reserved and `name` spells it.
fn is_word(reserved: Reserved, word: Word, name: &[u8]) -> bool
    ensures { result ≡ (is_reserved reserved word && same name.now (bytes (spelling (word_shown word)))) }
{
    reserved.contains(word) && equal(name, word.spelling().as_bytes())
}

// Which reserved word the bytes are, or a name.
fn name_kind(reserved: Reserved, name: &[u8]) -> Kind
    ensures { kind_shown name.now result ≡ or_name name.now (lookup name.now (entries (reserved_shown reserved))) }
{
    for word in WORDS {
        if is_word(reserved, word, name) {
            return Kind::Word(word);
        }
    }
    Kind::Name
}

// A knot whose first byte is at `place`.
fn knot_at(place: usize) -> Token
    ensures { (s : List ℕ) → shown s result ≡ knot place }
{
    Token {
        kind: Kind::Knot,
        place,
        after: place,
    }
}

// The name or the reserved word at `place`.
fn name_at(reserved: Reserved, text: &[u8], place: usize) -> Token
    requires { place ≤ length text.now }
    ensures { shown text.now result ≡ name_token (reserved_shown reserved) place (run is_name_byte (drop place text.now)) }
{
    let after = run_end(text, place, is_name_byte);
    if LONGEST_NAME < after - place {
        return knot_at(place);
    }
    Token {
        kind: name_kind(reserved, &text[place..after]),
        place,
        after,
    }
}

// The value of digits that have the value `value` and of one more behind them, if it is below 2^64.
fn with_digit(value: u64, b: u8) -> Option<u64>
    requires { is_digit b ≡ true }
    ensures { MatchOption result (2 ^ 64 ≤ value * 10 + (b - 48)) (λ v. v ≡ value * 10 + (b - 48)) }
{
    value.checked_mul(10)?.checked_add(u64::from(b - b'0'))
}

// The number at `place`. Behind the digit that makes it too large nothing is looked at.
fn number_at(text: &[u8], place: usize) -> Token
    requires { place ≤ length text.now }
    ensures { shown text.now result ≡ number_token place (run is_digit (drop place text.now)) }
{
    let mut value: u64 = 0;
    for (i, b) in text[place..].iter().enumerate() {
        if !is_digit(*b) {
            return Token {
                kind: Kind::Number(value),
                place,
                after: place + i,
            };
        }
        let Some(longer) = with_digit(value, *b) else {
            return knot_at(place);
        };
        value = longer;
    }
    Token {
        kind: Kind::Number(value),
        place,
        after: text.len(),
    }
}

// Whether the byte at `at` is there, and is `b`.
fn next_is(text: &[u8], at: usize, b: u8) -> bool
    ensures { result ≡ begins b (drop at text.now) }
{
    at < text.len() && text[at] == b
}

// The sign at `place`, where `longest` is the longest that begins with the byte there.
fn sign_at(text: &[u8], place: usize, longest: Sign) -> Token
    requires place_in_bounds { place < length text.now }
    requires begins { 4 + sign_number longest ≡ class_of (get_or text.now place 0) }
    ensures { shown text.now result ≡ sign_token place (drop place text.now) }
{
    let Some(second) = longest.second() else {
        return Token {
            kind: Kind::Sign(longest),
            place,
            after: place + 1,
        };
    };
    if next_is(text, place + 1, second) {
        return Token {
            kind: Kind::Sign(longest),
            place,
            after: place + 2,
        };
    }
    if longest == Sign::DoubleEquals {
        return Token {
            kind: Kind::Sign(Sign::Equals),
            place,
            after: place + 1,
        };
    }
    knot_at(place)
}

/// The token at a position of a text, after white space, where these words are reserved.
/// Past the end it is the end, at the text's length.
pub fn token_at(reserved: Reserved, text: &[u8], at: usize) -> Token
    ensures { shown text.now result ≡ token_at (reserved_shown reserved) text.now at }
{
    let place = run_end(text, at.min(text.len()), is_white);
    if text.len() <= place {
        return Token {
            kind: Kind::End,
            place: text.len(),
            after: text.len(),
        };
    }
    match class_of(text[place]) {
        Class::Digit => number_at(text, place),
        Class::Letter => name_at(reserved, text, place),
        Class::Sign(longest) => sign_at(text, place, longest),
        Class::White | Class::Other => knot_at(place),
    }
}
