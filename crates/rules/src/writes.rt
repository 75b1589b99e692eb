// The writes of a letter: `{`, one or more of `store <- value;`, `}`.
ghost use Rattle.std.specs.Prelude.{IfOk, ℕ, ◌<◌, ◌≤◌};
ghost use Rattle.meaning.specs.Reading.{write_value};
ghost use Rattle.meaning.specs.Names.{Names};
ghost use Rattle.rules.specs.Seen.{Sees};
ghost use Rattle.rules.specs.Reads.{read_from};
ghost use Rattle.rules.specs.Tasks.{Writing, WriteRead, RestRead, WritesRead};
ghost use Rattle.rules.specs.Written.{by_wire, by_written};
ghost use Rattle.rules.specs.Conditions.{Room};
ghost use Rattle.rules.specs.Cells.{Cells};

use super::literals::{largest, with_link};
use super::names::{NameKind, find_kind};
use super::tokens::{Misread, see, sign};
use lexer::{Kind, Sign, Token};
use refusals::Refusal;
use words::{part0, part1};

// How many writes there are, the last of their links, and where to read on.
#[derive(Drop)]
pub(crate) struct Written {
    pub(crate) at: usize,
    pub(crate) free: usize,
    pub(crate) count: usize,
    pub(crate) link: usize,
}

// The name of wires behind `store <-`, and `;`.
fn write_wire(
    text: &[u8],
    words: &mut [u64],
    last: usize,
    free: usize,
    count: usize,
    link: usize,
    store: usize,
    width: usize,
    t: Token,
) -> Result<Written, Misread>
    requires { Writing text.now words.old t.place free last count link × (count ≤ 1) × (store < 16) × (width ≤ 64) × ((pos : ℕ) × Sees text.now pos t) }
    ensures { WriteRead text.now words.old t.place free last count link (by_wire text.now t store width) result words.new }
{
    let cell = find_kind(text, words, last, t, NameKind::Wire)?;
    let what = words[cell + 1];
    if part1(what) != width {
        return Err(Misread::refused(t, Refusal::Oversize));
    }
    let l = with_link(words, free, count, link, store, part0(what), width, 0);
    let end = sign(text, t.after, Sign::Semicolon)?;
    Ok(Written {
        at: end,
        free: l.free,
        count: l.tests,
        link: l.link,
    })
}

// What is written, behind `store <-`, and `;`.
fn write_value(
    text: &[u8],
    words: &mut [u64],
    last: usize,
    free: usize,
    at: usize,
    count: usize,
    link: usize,
    store: usize,
    width: usize,
) -> Result<Written, Misread>
    requires { Writing text.now words.old at free last count link × (count ≤ 1) × (store < 16) × (width ≤ 64) }
    ensures { WriteRead text.now words.old at free last count link (λ ns x ws. read_from text.now at ns (write_value x.within x.literals ws store width)) result words.new }
{
    let t = see(text, at);
    let Kind::Number(value) = t.kind else {
        return write_wire(text, words, last, free, count, link, store, width, t);
    };
    if largest(width) < value {
        return Err(Misread::refused(t, Refusal::Oversize));
    }
    let l = with_link(words, free, count, link, store, 0, 0, value);
    let end = sign(text, t.after, Sign::Semicolon)?;
    Ok(Written {
        at: end,
        free: l.free,
        count: l.tests,
        link: l.link,
    })
}

// One write: its store, `<-`, what is written, `;`.
fn write_one(
    text: &[u8],
    words: &mut [u64],
    last: usize,
    free: usize,
    count: usize,
    link: usize,
    t: Token,
) -> Result<Written, Misread>
    requires { Writing text.now words.old t.place free last count link × ((pos : ℕ) × Sees text.now pos t) }
    ensures { WriteRead text.now words.old t.place free last count link (by_written text.now t) result words.new × IfOk result (λ w. t.place < w.at) }
{
    let cell = find_kind(text, words, last, t, NameKind::Store)?;
    if 2 <= count {
        return Err(Misread::refused(t, Refusal::Crowded));
    }
    let arrow = sign(text, t.after, Sign::LeftArrow)?;
    let what = words[cell + 1];
    write_value(
        text,
        words,
        last,
        free,
        arrow,
        count,
        link,
        part0(what),
        part1(what),
    )
}

// The writes that follow one, up to behind `}`.
fn more_writes(
    text: &[u8],
    words: &mut [u64],
    last: usize,
    free: usize,
    at: usize,
    count: usize,
    link: usize,
) -> Result<Written, Misread>
    requires { Writing text.now words.old at free last count link }
    ensures { RestRead text.now words.old at free last count link result words.new }
{
    let mut w = Written {
        at,
        free,
        count,
        link,
    };
    loop {
        let t = see(text, w.at);
        if t.kind == Kind::Sign(Sign::RightBrace) {
            return Ok(Written { at: t.after, ..w });
        }
        w = write_one(text, words, last, w.free, w.count, w.link, t)?;
    }
}

// The writes behind `{`, up to behind `}`.
pub(crate) fn writes(
    text: &[u8],
    words: &mut [u64],
    last: usize,
    free: usize,
    at: usize,
) -> Result<Written, Misread>
    requires { Room text.now words.old at free × ((ns : Names) × Cells text.now words.old free last ns.declared) }
    ensures { WritesRead text.now words.old at free last result words.new }
{
    let t = see(text, at);
    let w = write_one(text, words, last, free, 0, 0, t)?;
    more_writes(text, words, last, w.free, w.at, w.count, w.link)
}
