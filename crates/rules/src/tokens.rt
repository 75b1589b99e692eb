// Reading by the token at a position of a rule text: a sign, a reserved word or a number that must stand there, and the refusal of what may not.
ghost use Rattle.std.specs.Prelude.{◌≡◌};
ghost use Rattle.lexer.specs.Shown.{sign_number, word_shown};
ghost use Rattle.meaning.specs.Reading.{sign, keyword, nought, to_zero};
ghost use Rattle.refusals.specs.Refusals.{number_of};
ghost use Rattle.rules.specs.Seen.{fault_of, Sees};
ghost use Rattle.rules.specs.Reads.{Behind, NumberRead};
ghost use Rattle.rules.specs.Misreads.{fault_in, next_in, at_in, or_in};

use lexer::{Kind, Sign, Token, Word, rule_words, token_at};
use refusals::Refusal;

// Why reading stops, and the place of the byte there.
#[derive(Clone, Copy, Debug, PartialEq, Eq)]
pub(crate) struct Misread {
    pub(crate) why: Refusal,
    pub(crate) place: usize,
}

impl Misread {
    // X4: the refusal of a token where it is not allowed.
    pub(crate) fn misplaced(t: Token) -> Misread
        ensures { (number_of result.why ≡ fault_of t.kind) × (result.place ≡ t.place) }
    {
        match t.kind {
            Kind::Knot => Misread::refused(t, Refusal::Knot),
            _ => Misread::refused(t, Refusal::Misplaced),
        }
    }

    // A refusal of a token.
    pub(crate) fn refused(t: Token, why: Refusal) -> Misread
        ensures { (result.why ≡ why) × (result.place ≡ t.place) }
    {
        Misread {
            why,
            place: t.place,
        }
    }
}

// The token at a position of a text.
pub(crate) fn see(text: &[u8], at: usize) -> Token
    ensures { Sees text.now at result }
{
    token_at(rule_words(), text, at)
}

// The position behind a sign that must stand here.
pub(crate) fn sign(text: &[u8], at: usize, wanted: Sign) -> Result<usize, Misread>
    ensures { Behind text.now at (fault_in result) (next_in result) (sign (sign_number wanted)) }
{
    let t = see(text, at);
    if t.kind == Kind::Sign(wanted) {
        Ok(t.after)
    } else {
        Err(Misread::misplaced(t))
    }
}

// The position behind a reserved word that must stand here.
pub(crate) fn keyword(text: &[u8], at: usize, wanted: Word) -> Result<usize, Misread>
    ensures { Behind text.now at (fault_in result) (next_in result) (keyword (word_shown wanted)) }
{
    let t = see(text, at);
    if t.kind == Kind::Word(wanted) {
        Ok(t.after)
    } else {
        Err(Misread::misplaced(t))
    }
}

// A number, and from where to where it stands.
#[derive(Drop)]
pub(crate) struct Number {
    pub(crate) value: u64,
    pub(crate) place: usize,
    pub(crate) after: usize,
}

// A number that must stand here and is at most `most`.
pub(crate) fn number_to(text: &[u8], at: usize, most: u64) -> Result<Number, Misread>
    ensures { NumberRead text.now at most (fault_in result) (at_in (λ n. n.after) result) (at_in (λ n. n.place) result) (or_in (λ n. n.value) 0 result) }
{
    let t = see(text, at);
    let Kind::Number(value) = t.kind else {
        return Err(Misread::misplaced(t));
    };
    if most < value {
        return Err(Misread::refused(t, Refusal::Oversize));
    }
    Ok(Number {
        value,
        place: t.place,
        after: t.after,
    })
}

// The position behind the number 0, which must stand here.
fn nought(text: &[u8], at: usize) -> Result<usize, Misread>
    ensures { Behind text.now at (fault_in result) (next_in result) nought }
{
    let t = see(text, at);
    if t.kind == Kind::Number(0) {
        Ok(t.after)
    } else {
        Err(Misread::misplaced(t))
    }
}

// The position behind `:0]`.
pub(crate) fn to_zero(text: &[u8], at: usize) -> Result<usize, Misread>
    ensures { Behind text.now at (fault_in result) (next_in result) to_zero }
{
    let zero = sign(text, at, Sign::Colon)?;
    let close = nought(text, zero)?;
    sign(text, close, Sign::RightBracket)
}
