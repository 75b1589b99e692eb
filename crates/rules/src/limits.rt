// Limits (docs/REFERENCE.md, G22): the production that is limited, how many ticks it may be met on, and in a row of how many.
ghost use Rattle.std.specs.Prelude.{◌≡◌, ◌<◌};
ghost use Rattle.lexer.specs.Shown.{word_shown};
ghost use Rattle.meaning.specs.Reading.{limit_name};
ghost use Rattle.rules.specs.Misreads.{fault_in, at_in, or_in};
ghost use Rattle.rules.specs.Cells.{Declared as SomeNames};
ghost use Rattle.rules.specs.Scopes.{Ready, told_declared, Declares};
ghost use Rattle.rules.specs.Limits.{SingleRead, TicksRead, LimitRead};

use super::declarations::{Declared, Scope};
use super::names::{NameKind, find_kind};
use super::parts::NodeKind;
use super::tokens::{Misread, keyword, see, sign};
use lexer::{Kind, Sign, Word};
use refusals::Refusal;
use words::{part0, part2, quad};

// The number of a production, and where to read on.
#[derive(Drop)]
struct Limited {
    at: usize,
    number: usize,
}

// The name that must stand here, of a production that is a single letter.
fn single(text: &[u8], words: &[u64], last: usize, at: usize) -> Result<Limited, Misread>
    requires { SomeNames text.now words.now last }
    ensures { SingleRead text.now words.now last at (fault_in result) (at_in (λ p. p.at) result) (or_in (λ p. p.number) 0 result) }
{
    let t = see(text, at);
    let cell = find_kind(text, words, last, t, NameKind::Production)?;
    let node = part0(words[cell + 1]);
    let head = words[node];
    if part0(head) != NodeKind::Named.number() {
        return Err(Misread::refused(t, Refusal::NotSingle));
    }
    Ok(Limited {
        at: t.after,
        number: part2(head),
    })
}

// A number of ticks, and where to read on.
#[derive(Drop)]
struct Ticks {
    at: usize,
    value: u64,
}

// The reserved word that must stand here, and behind it a number from `least` to `most`.
fn ticks_from(text: &[u8], at: usize, wanted: Word, least: u64, most: u64) -> Result<Ticks, Misread>
    ensures { TicksRead text.now at (word_shown wanted) least most (fault_in result) (at_in (λ n. n.at) result) (or_in (λ n. n.value) 0 result) }
{
    let word = keyword(text, at, wanted)?;
    let t = see(text, word);
    let Kind::Number(value) = t.kind else {
        return Err(Misread::misplaced(t));
    };
    if value < least || most < value {
        return Err(Misread::refused(t, Refusal::Stretch));
    }
    Ok(Ticks { at: t.after, value })
}

// A limit in one word, and where to read on.
#[derive(Drop)]
struct Bound {
    at: usize,
    word: u64,
}

// What stands behind `limit`, up to behind its `;`.
fn bound_at(text: &[u8], words: &[u64], last: usize, at: usize) -> Result<Bound, Misread>
    requires { SomeNames text.now words.now last }
    ensures { LimitRead text.now words.now last at (fault_in result) (at_in (λ b. b.at) result) (or_in (λ b. b.word) 0 result) }
{
    let p = single(text, words, last, at)?;
    let n = ticks_from(text, p.at, Word::To, 0, 1023)?;
    let w = ticks_from(text, n.at, Word::In, n.value + 1, 1024)?;
    let end = sign(text, w.at, Sign::Semicolon)?;
    Ok(Bound {
        at: end,
        word: quad(p.number, n.value as usize, w.value as usize, 0),
    })
}

// What stands behind `limit`, where there are fewer than eight. Its word goes behind those that there are.
pub(crate) fn limit(
    text: &[u8],
    words: &[u64],
    kept: &mut [u64; 24],
    scope: Scope,
    free: usize,
    at: usize,
) -> Result<Declared, Misread>
    requires { Ready text.now words.now kept.old at free scope × (scope.limits < 8) }
    ensures { Declares text.now limit_name words.now kept.old at free scope (told_declared free scope result) words.now kept.new }
{
    let limits = scope.limits;
    let bound = bound_at(text, words, scope.last, at)?;
    kept[16 + limits] = bound.word;
    Ok(Declared {
        at: bound.at,
        free,
        scope: Scope {
            limits: limits + 1,
            ..scope
        },
    })
}
