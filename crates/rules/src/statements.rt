// The statements of a text one after the other: declarations, and then the monitors up to the end (docs/REFERENCE.md, G2).
ghost use Rattle.std.specs.Prelude.{◌≡◌, ◌+◌, ◌*◌, ◌≤◌, length};
ghost use Rattle.lexer.specs.declared.Kind.TheVariants as kind;
ghost use Rattle.lexer.specs.declared.Word.TheVariants as reserved;
ghost use Rattle.meaning.specs.Reading.{statement};
ghost use Rattle.rules.specs.Cells.{Declared as SomeNames};
ghost use Rattle.rules.specs.Scopes.{Ready, told_declared, Declares};
ghost use Rattle.rules.specs.Seen.{Sees};
ghost use Rattle.rules.specs.Misreads.{fault_in, at_in, or_in};
ghost use Rattle.rules.specs.Statements.{OneListed, AllListed, Monitored, Stated, TextRead};

use super::declarations::{Declared, Scope, input, store};
use super::definitions::{define, production};
use super::limits::limit;
use super::names::{NameKind, find_kind};
use super::tokens::{Misread, see};
use lexer::{Kind, Sign, Token, Word};
use refusals::Refusal;

// ---- monitors

// How many monitors are listed, and where to read on.
#[derive(Drop)]
pub(crate) struct MonitorList {
    pub(crate) at: usize,
    pub(crate) count: usize,
}

// One monitor's name: that of a production, whose cell goes behind those that are listed.
fn one_monitor(
    text: &[u8],
    words: &[u64],
    last: usize,
    at: usize,
    list: &mut [u16; 32],
    count: usize,
) -> Result<MonitorList, Misread>
    requires { SomeNames text.now words.now last × (length words.now ≤ 65535) × (length list.old ≡ 32) }
    ensures { OneListed text.now words.now last at list.old count (fault_in result) (at_in (λ m. m.at) result) list.new (or_in (λ m. m.count) count result) × (length list.new ≡ length list.old) }
{
    let t = see(text, at);
    let cell = find_kind(text, words, last, t, NameKind::Production)?;
    if 32 <= count {
        return Err(Misread::refused(t, Refusal::Crowded));
    }
    list[count] = cell as u16;
    Ok(MonitorList {
        at: t.after,
        count: count + 1,
    })
}

// The monitors' names up to behind `;`.
fn all_monitors(
    text: &[u8],
    words: &[u64],
    last: usize,
    at: usize,
    list: &mut [u16; 32],
) -> Result<MonitorList, Misread>
    requires { SomeNames text.now words.now last × (length words.now ≤ 65535) × (length list.old ≡ 32) }
    ensures { AllListed text.now words.now last at (fault_in result) (at_in (λ m. m.at) result) list.new (or_in (λ m. m.count) 0 result) × (length list.new ≡ length list.old) }
{
    let mut next = at;
    let mut count: usize = 0;
    loop {
        let m = one_monitor(text, words, last, next, list, count)?;
        let t = see(text, m.at);
        if t.kind == Kind::Sign(Sign::Semicolon) {
            return Ok(MonitorList {
                at: t.after,
                count: m.count,
            });
        }
        if t.kind != Kind::Sign(Sign::Comma) {
            return Err(Misread::misplaced(t));
        }
        next = t.after;
        count = m.count;
    }
}

// What stands behind `monitor`, up to the end of the text.
pub(crate) fn monitors(
    text: &[u8],
    words: &[u64],
    last: usize,
    at: usize,
    list: &mut [u16; 32],
) -> Result<MonitorList, Misread>
    requires { SomeNames text.now words.now last × (length words.now ≤ 65535) × (length list.old ≡ 32) }
    ensures { Monitored text.now words.now last at (fault_in result) (at_in (λ m. m.at) result) list.new (or_in (λ m. m.count) 0 result) × (length list.new ≡ length list.old) }
{
    let m = all_monitors(text, words, last, at, list)?;
    let t = see(text, m.at);
    if t.kind != Kind::End {
        return Err(Misread::misplaced(t));
    }
    Ok(m)
}

// ---- declarations

// The declaration that begins with a token, which is not `monitor`.
fn one_statement(
    text: &[u8],
    words: &mut [u64],
    kept: &mut [u64; 24],
    scope: Scope,
    free: usize,
    at: usize,
    t: Token,
) -> Result<Declared, Misread>
    requires { Ready text.now words.old kept.old at free scope × Sees text.now at t × (t.kind ≡ kind.Word reserved.Monitor → ⊥) }
    ensures { Declares text.now statement words.old kept.old at free scope (told_declared free scope result) words.new kept.new }
{
    match t.kind {
        Kind::Name => production(text, words, scope, free, at),
        Kind::Word(word) => match word {
            Word::Input => input(text, words, scope, free, t.after),
            Word::Internal => store(text, words, kept, scope, free, t.after),
            Word::Define => define(text, words, scope, free, t.after),
            Word::Limit => {
                if 8 <= scope.limits {
                    return Err(Misread::refused(t, Refusal::Crowded));
                }
                limit(text, words, kept, scope, free, t.after)
            }
            _ => Err(Misread::misplaced(t)),
        },
        _ => Err(Misread::misplaced(t)),
    }
}

// The declarations of a text, up to behind `monitor`. Kept are the first values of 16 stores, and then a word for each of 8
// limits.
fn statements(text: &[u8], words: &mut [u64], kept: &mut [u64; 24]) -> Result<Declared, Misread>
    requires { (length text.now ≤ 16384) × (3 * length text.now + 2 ≤ length words.old) × (length words.old ≤ 65535) × (length kept.old ≡ 24) }
    ensures { Stated text.now words.old kept.old result words.new kept.new }
{
    let mut d = Declared {
        at: 0,
        free: 1,
        scope: Scope {
            last: 0,
            count: 0,
            wires: 0,
            stores: 0,
            limits: 0,
        },
    };
    loop {
        let t = see(text, d.at);
        if t.kind == Kind::Word(Word::Monitor) {
            return Ok(Declared { at: t.after, ..d });
        }
        d = one_statement(text, words, kept, d.scope, d.free, d.at, t)?;
    }
}

// ---- a text

// What a text says: how many of the words it takes, its wires, stores, limits and monitors.
#[derive(Drop)]
pub(crate) struct Reading {
    pub(crate) free: usize,
    pub(crate) wires: usize,
    pub(crate) stores: usize,
    pub(crate) limits: usize,
    pub(crate) count: usize,
}

// Reads a text that is not overlong.
pub(crate) fn read(
    text: &[u8],
    words: &mut [u64],
    kept: &mut [u64; 24],
    list: &mut [u16; 32],
) -> Result<Reading, Misread>
    requires { (length text.now ≤ 16384) × (3 * length text.now + 2 ≤ length words.old) × (length words.old ≤ 65535) × (length kept.old ≡ 24) × (length list.old ≡ 32) }
    ensures { TextRead text.now result words.new kept.new list.new
        × (length words.new ≡ length words.old) × (length kept.new ≡ length kept.old) × (length list.new ≡ length list.old) }
{
    let d = statements(text, words, kept)?;
    let m = monitors(text, words, d.scope.last, d.at, list)?;
    Ok(Reading {
        free: d.free,
        wires: d.scope.wires,
        stores: d.scope.stores,
        limits: d.scope.limits,
        count: m.count,
    })
}
