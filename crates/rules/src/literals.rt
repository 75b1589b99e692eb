// Literals: what a letter or a define asks for, as masks and store tests, and reading one literal after another.
ghost use Rattle.std.specs.Prelude.{◌≡◌, true, ◌&&◌, List, ℕ, ◌+◌, ◌-◌, ◌*◌, ◌^◌, ◌<◌, ◌≤◌, eqb, length};
ghost use Rattle.lexer.specs.Bytes.{same};
ghost use Rattle.lexer.specs.declared.Kind.TheVariants as kind;
ghost use Rattle.meaning.specs.Expression.{Literal};
ghost use Rattle.masks.specs.Masks.{compatible};
ghost use Rattle.rules.specs.Cells.{link, held_at, StoreAt, DefineAt};
ghost use Rattle.rules.specs.NamesFound.{FindsCell};
ghost use Rattle.rules.specs.Conditions.{TestsAre, Joined, Linked, LinkedBoth, HeldBoth, Given, told_literals, Adds, AllAdded, by_store, by_define, by_test, by_name, Frugal};
ghost use Rattle.rules.specs.Picks.{spelt, bytes_of};
ghost use Rattle.meaning.specs.Reading.{sign, bit_index, store_equals, wire_equals, past_name, wire_more, negated, literal, literal_more};
ghost use Rattle.rules.specs.Seen.{is_name, Sees};
ghost use Rattle.rules.specs.Reads.{read_from};

use super::names::{NameKind, find, find_kind};
use super::tokens::{Misread, number_to, see, sign};
use lexer::{Kind, Sign, Token, Word, equal};
use masks::compatible;
use refusals::Refusal;
use words::{part0, part1, part2, part3, quad};

// The wires looked at and the values wanted there; whether no wire is wanted both ways; how many store tests there are,
// three standing for any more; the last of their links, where there are at most two; and the index of the word that has
// the wires to be as before (0: none).
// no plainer as Option: `link` and `held` stand so in words, four bare numbers to a word, where 0 is none
#[derive(Clone, Copy)]
pub(crate) struct Condition {
    pub(crate) look: u64,
    pub(crate) want: u64,
    pub(crate) agrees: bool,
    pub(crate) tests: usize,
    pub(crate) link: usize,
    pub(crate) held: usize,
}

// A condition with its words, and where to read on.
#[derive(Drop)]
pub(crate) struct Literals {
    pub(crate) at: usize,
    pub(crate) free: usize,
    pub(crate) condition: Condition,
}

// The largest number of so many bits.
pub(crate) fn largest(width: usize) -> u64
    requires { width ≤ 64 }
    ensures { result ≡ 2 ^ width - 1 }
{
    if width == 64 {
        return u64::MAX;
    }
    (1 << width) - 1
}

// A number moved up to a bit.
fn moved(value: u64, width: usize, lo: usize) -> u64
    requires { (value < 2 ^ width) × (lo + width ≤ 64) × (1 ≤ width) }
    ensures { result ≡ value * 2 ^ lo }
{
    value << lo
}

// Whether a condition and masks besides want nothing both ways.
fn agree_too(q: Condition, look: u64, want: u64, agrees: bool) -> bool
    ensures { result ≡ ((q.agrees && agrees) && compatible q.look q.want look want) }
{
    q.agrees && agrees && compatible(q.look, q.want, look, want)
}

// A condition, and masks besides.
fn both(q: Condition, look: u64, want: u64, agrees: bool) -> Condition
    ensures { Joined q look want agrees result }
{
    Condition {
        look: q.look | look,
        want: q.want | want,
        agrees: agree_too(q, look, want, agrees),
        ..q
    }
}

// Wires that are to have a value.
fn with_wires(q: Condition, lo: usize, width: usize, value: u64) -> Condition
    requires { (value < 2 ^ width) × (lo + width ≤ 64) × (1 ≤ width) }
    ensures { Joined q ((2 ^ width - 1) * 2 ^ lo) (value * 2 ^ lo) true result }
{
    both(
        q,
        moved(largest(width), width, lo),
        moved(value, width, lo),
        true,
    )
}

// The store tests of a condition with one more: a link is written for each of two, and a third is only counted.
#[derive(Drop)]
pub(crate) struct Tests {
    pub(crate) free: usize,
    pub(crate) tests: usize,
    pub(crate) link: usize,
}

pub(crate) fn with_link(
    words: &mut [u64],
    free: usize,
    tests: usize,
    last: usize,
    store: usize,
    lo: usize,
    width: usize,
    number: u64,
) -> Tests
    requires { (free + 2 ≤ length words.old) × (length words.old ≤ 65535) × (last < free) × (tests ≤ 3) × (store < 65536) × (lo < 65536) × (width < 65536) }
    ensures { Linked words.old free tests last (link store lo width number) result.free result.tests result.link words.new }
{
    if 2 <= tests {
        return Tests {
            free,
            tests: 3,
            link: 0,
        };
    }
    words[free] = quad(store, lo, width, last);
    words[free + 1] = number;
    Tests {
        free: free + 2,
        tests: tests + 1,
        link: free,
    }
}

// The store tests of a condition, and those of a define.
fn with_links(
    words: &mut [u64],
    free: usize,
    tests: usize,
    last: usize,
    more: usize,
    other: usize,
) -> Tests
    requires { (free + 2 ≤ length words.old) × (length words.old ≤ 65535) × (last < free) × (tests ≤ 3) × ((ds : List Literal) × TestsAre words.old free more other ds) }
    ensures { LinkedBoth words.old free tests last more other result.free result.tests result.link words.new }
{
    if more == 0 {
        return Tests {
            free,
            tests,
            link: last,
        };
    }
    if tests == 0 {
        return Tests {
            free,
            tests: more,
            link: other,
        };
    }
    if 2 < tests + more {
        return Tests {
            free,
            tests: 3,
            link: 0,
        };
    }
    let head = words[other];
    let number = words[other + 1];
    with_link(
        words,
        free,
        tests,
        last,
        part0(head),
        part1(head),
        part2(head),
        number,
    )
}

// The wires to be as before that the word at an index has; none where the index is 0.
pub(crate) fn held_at(words: &[u64], held: usize) -> u64
    requires { held < length words.now }
    ensures { result ≡ held_at words.now held }
{
    // no plainer: a word holds the index in 16 bits, 0 for none
    if held == 0 {
        return 0;
    }
    words[held]
}

// The index of a word with wires to be as before, and where the words go on.
#[derive(Drop)]
struct Held {
    free: usize,
    held: usize,
}

// The wires that a condition holds, and those that a define does: a word is written only where both hold some.
fn join_held(words: &mut [u64], free: usize, one: usize, other: usize) -> Held
    requires { (free + 1 ≤ length words.old) × (one < free) × (other < free) }
    ensures { HeldBoth words.old free one other result.free result.held words.new }
{
    if other == 0 {
        return Held { free, held: one };
    }
    if one == 0 {
        return Held { free, held: other };
    }
    words[free] = words[one] | words[other];
    Held {
        free: free + 1,
        held: free,
    }
}

// `i]` behind `N[`: the wire that is bit i of those from `lo` on.
fn bit_literal(
    text: &[u8],
    at: usize,
    free: usize,
    q: Condition,
    lo: usize,
    width: usize,
    value: u64,
) -> Result<Literals, Misread>
    requires { (1 ≤ width) × (lo + width ≤ 64) × (value < 2) × (at ≤ length text.now) }
    ensures { (P : List ℕ) → (h most : ℕ) → Adds text.now (λ ns x ls. read_from text.now at ns (bit_index x ls lo width value)) P at free h q most (told_literals free q result) P }
{
    let i = number_to(text, at, (width - 1) as u64)?;
    let close = sign(text, i.after, Sign::RightBracket)?;
    Ok(Literals {
        at: close,
        free,
        condition: with_wires(q, lo + i.value as usize, 1, value),
    })
}

// `== number` behind the name of a store.
fn store_literal(
    text: &[u8],
    words: &mut [u64],
    last: usize,
    free: usize,
    at: usize,
    q: Condition,
    store: usize,
    width: usize,
) -> Result<Literals, Misread>
    requires { Given text.now words.old at free last q × (store < 16) × (1 ≤ width) × (width ≤ 64) }
    ensures { (most : ℕ) → q.tests + 1 ≤ most → Adds text.now (λ ns x ls. read_from text.now at ns (sign 14 (store_equals x ls store width))) words.old at free last q most (told_literals free q result) words.new }
{
    let equals = sign(text, at, Sign::DoubleEquals)?;
    let v = number_to(text, equals, largest(width))?;
    let t = with_link(words, free, q.tests, q.link, store, 0, 0, v.value);
    Ok(Literals {
        at: v.after,
        free: t.free,
        condition: Condition {
            tests: t.tests,
            link: t.link,
            ..q
        },
    })
}

// The name of a store behind `wire ==`.
fn wire_store(
    text: &[u8],
    words: &mut [u64],
    last: usize,
    free: usize,
    q: Condition,
    most: usize,
    lo: usize,
    width: usize,
    t: Token,
) -> Result<Literals, Misread>
    requires { Given text.now words.old t.place free last q × (1 ≤ width) × (lo + width ≤ 64) × ((pos : ℕ) × Sees text.now pos t) }
    ensures { Adds text.now (by_store text.now t lo width) words.old t.place free last q most (told_literals free q result) words.new }
{
    let cell = find_kind(text, words, last, t, NameKind::Store)?;
    let what = words[cell + 1];
    if part1(what) != width {
        return Err(Misread::refused(t, Refusal::Oversize));
    }
    if most < q.tests + 1 {
        return Err(Misread::refused(t, Refusal::Crowded));
    }
    let l = with_link(words, free, q.tests, q.link, part0(what), lo, width, 0);
    Ok(Literals {
        at: t.after,
        free: l.free,
        condition: Condition {
            tests: l.tests,
            link: l.link,
            ..q
        },
    })
}

// Whether the token is the name whose bytes are those from `place` up to `after`.
fn is_name(text: &[u8], t: Token, place: usize, after: usize) -> bool
    requires { ((pos : ℕ) × Sees text.now pos t) × (place ≤ after) × (after ≤ length text.now) }
    ensures { result ≡ (is_name t.kind && same (bytes_of text.now t) (spelt text.now place after)) }
{
    if t.kind != Kind::Name {
        return false;
    }
    let from = t.place;
    let to = t.after;
    equal(&text[from..to], &text[place..after])
}

// `(wire)` behind `wire == past`, the name of the wire standing from `place` up to `after`.
fn past_literal(
    text: &[u8],
    words: &mut [u64],
    last: usize,
    free: usize,
    at: usize,
    q: Condition,
    lo: usize,
    width: usize,
    place: usize,
    after: usize,
) -> Result<Literals, Misread>
    requires { Given text.now words.old at free last q × (1 ≤ width) × (lo + width ≤ 64) × (place ≤ after) × (after ≤ length text.now) }
    ensures { (most : ℕ) → Adds text.now (λ ns x ls. read_from text.now at ns (sign 6 (past_name x ls (spelt text.now place after) lo width))) words.old at free last q most (told_literals free q result) words.new }
{
    let open = sign(text, at, Sign::LeftParen)?;
    let t = see(text, open);
    if !is_name(text, t, place, after) {
        return Err(Misread::misplaced(t));
    }
    let close = sign(text, t.after, Sign::RightParen)?;
    words[free] = held_at(words, q.held) | moved(largest(width), width, lo);
    Ok(Literals {
        at: close,
        free: free + 1,
        condition: Condition { held: free, ..q },
    })
}

// What wires are compared with, behind `wire ==`; the wire's name stands from `place` up to `after`.
fn wire_equals(
    text: &[u8],
    words: &mut [u64],
    last: usize,
    free: usize,
    at: usize,
    q: Condition,
    most: usize,
    lo: usize,
    width: usize,
    place: usize,
    after: usize,
) -> Result<Literals, Misread>
    requires { Given text.now words.old at free last q × (1 ≤ width) × (lo + width ≤ 64) × (place ≤ after) × (after ≤ length text.now) }
    ensures { Adds text.now (λ ns x ls. read_from text.now at ns (wire_equals x ls (spelt text.now place after) lo width)) words.old at free last q most (told_literals free q result) words.new }
{
    let t = see(text, at);
    if t.kind == Kind::Word(Word::Past) {
        return past_literal(text, words, last, free, t.after, q, lo, width, place, after);
    }
    let Kind::Number(value) = t.kind else {
        return wire_store(text, words, last, free, q, most, lo, width, t);
    };
    if largest(width) < value {
        return Err(Misread::refused(t, Refusal::Oversize));
    }
    Ok(Literals {
        at: t.after,
        free,
        condition: with_wires(q, lo, width, value),
    })
}

// Behind the name of wires that stands from `place` up to `at`; `value` is what a wire by itself is to have.
fn wire_more(
    text: &[u8],
    words: &mut [u64],
    last: usize,
    free: usize,
    at: usize,
    q: Condition,
    most: usize,
    lo: usize,
    width: usize,
    value: u64,
    place: usize,
) -> Result<Literals, Misread>
    requires { Given text.now words.old at free last q × (1 ≤ width) × (lo + width ≤ 64) × (value < 2) × (place ≤ at) }
    ensures { Adds text.now (λ ns x ls. read_from text.now at ns (wire_more x ls (spelt text.now place at) lo width value place)) words.old at free last q most (told_literals free q result) words.new }
{
    let t = see(text, at);
    if t.kind == Kind::Sign(Sign::LeftBracket) {
        return bit_literal(text, t.after, free, q, lo, width, value);
    }
    if t.kind == Kind::Sign(Sign::DoubleEquals) {
        if value == 1 {
            return wire_equals(
                text, words, last, free, t.after, q, most, lo, width, place, at,
            );
        }
        return Err(Misread::misplaced(t));
    }
    if width != 1 {
        return Err(Misread {
            why: Refusal::Oversize,
            place,
        });
    }
    Ok(Literals {
        at,
        free,
        condition: with_wires(q, lo, 1, value),
    })
}

// The name of wires behind `!`.
pub(crate) fn negated(
    text: &[u8],
    words: &mut [u64],
    last: usize,
    free: usize,
    at: usize,
    q: Condition,
    most: usize,
) -> Result<Literals, Misread>
    requires { Given text.now words.old at free last q }
    ensures { Adds text.now (λ ns x ls. read_from text.now at ns (negated x ls)) words.old at free last q most (told_literals free q result) words.new }
{
    let t = see(text, at);
    let cell = find_kind(text, words, last, t, NameKind::Wire)?;
    let what = words[cell + 1];
    wire_more(
        text,
        words,
        last,
        free,
        t.after,
        q,
        most,
        part0(what),
        part1(what),
        0,
        t.place,
    )
}

// The name of a define, whose cell is `cell`.
fn define_literal(
    text: &[u8],
    words: &mut [u64],
    last: usize,
    free: usize,
    q: Condition,
    most: usize,
    cell: usize,
    t: Token,
) -> Result<Literals, Misread>
    requires { Given text.now words.old t.place free last q × ((ds : List Literal) × DefineAt words.old free cell ds) × ((pos : ℕ) × Sees text.now pos t) × (t.kind ≡ kind.Name) }
    ensures { ((ds : List Literal) → DefineAt words.old free cell ds → Adds text.now (by_define text.now t ds) words.old t.place free last q most (told_literals free q result) words.new) × Frugal q.tests q.held (told_literals free q result) t.after free }
{
    let what = words[cell + 1];
    let tests = part1(what);
    if most < q.tests + tests {
        return Err(Misread::refused(t, Refusal::Crowded));
    }
    let joined = both(q, words[cell + 2], words[cell + 3], part0(what) == 1);
    let l = with_links(words, free, q.tests, q.link, tests, part2(what));
    let h = join_held(words, l.free, q.held, part3(what));
    Ok(Literals {
        at: t.after,
        free: h.free,
        condition: Condition {
            tests: l.tests,
            link: l.link,
            held: h.held,
            ..joined
        },
    })
}

// The name of a store, whose cell is `cell`.
fn store_name(
    text: &[u8],
    words: &mut [u64],
    last: usize,
    free: usize,
    q: Condition,
    most: usize,
    cell: usize,
    t: Token,
) -> Result<Literals, Misread>
    requires { Given text.now words.old t.place free last q × ((n : ℕ) × (w : ℕ) × StoreAt words.old free cell n w) × ((pos : ℕ) × Sees text.now pos t) × (t.kind ≡ kind.Name) }
    ensures { ((n w : ℕ) → StoreAt words.old free cell n w → Adds text.now (by_test text.now t n w) words.old t.place free last q most (told_literals free q result) words.new) × Frugal q.tests q.held (told_literals free q result) t.after free }
{
    if most < q.tests + 1 {
        return Err(Misread::refused(t, Refusal::Crowded));
    }
    let what = words[cell + 1];
    store_literal(
        text,
        words,
        last,
        free,
        t.after,
        q,
        part0(what),
        part1(what),
    )
}

// A literal that the name `t` begins, with its cell, if it is declared.
pub(crate) fn literal_name(
    text: &[u8],
    words: &mut [u64],
    last: usize,
    free: usize,
    q: Condition,
    most: usize,
    found: Option<usize>,
    t: Token,
) -> Result<Literals, Misread>
    requires { Given text.now words.old t.place free last q × ((pos : ℕ) × Sees text.now pos t) × (t.kind ≡ kind.Name) × FindsCell text.now words.old last (bytes_of text.now t) found }
    ensures { Adds text.now (by_name text.now t) words.old t.place free last q most (told_literals free q result) words.new × Frugal q.tests q.held (told_literals free q result) t.after free }
{
    let Some(cell) = found else {
        return Err(Misread::refused(t, Refusal::Unknown));
    };
    let Some(kind) = NameKind::of(words[cell]) else {
        return Err(Misread::refused(t, Refusal::Unknown));
    };
    match kind {
        NameKind::Wire => {
            let what = words[cell + 1];
            wire_more(
                text,
                words,
                last,
                free,
                t.after,
                q,
                most,
                part0(what),
                part1(what),
                1,
                t.place,
            )
        }
        NameKind::Defined => define_literal(text, words, last, free, q, most, cell, t),
        NameKind::Store => store_name(text, words, last, free, q, most, cell, t),
        NameKind::Production => Err(Misread::refused(t, Refusal::Unknown)),
    }
}

// One literal.
pub(crate) fn literal(
    text: &[u8],
    words: &mut [u64],
    last: usize,
    free: usize,
    at: usize,
    q: Condition,
    most: usize,
) -> Result<Literals, Misread>
    requires { Given text.now words.old at free last q }
    ensures { Adds text.now (λ ns x ls. read_from text.now at ns (literal x ls)) words.old at free last q most (told_literals free q result) words.new }
{
    let t = see(text, at);
    if t.kind == Kind::Sign(Sign::Bang) {
        return negated(text, words, last, free, t.after, q, most);
    }
    if t.kind != Kind::Name {
        return Err(Misread::misplaced(t));
    }
    let found = find(text, words, last, t.place, t.after);
    literal_name(text, words, last, free, q, most, found, t)
}

// The literals that follow, each behind `&`.
pub(crate) fn more_literals(
    text: &[u8],
    words: &mut [u64],
    last: usize,
    free: usize,
    at: usize,
    q: Condition,
    most: usize,
) -> Result<Literals, Misread>
    requires { Given text.now words.old at free last q }
    ensures { AllAdded text.now (λ ns x ls. read_from text.now at ns (literal_more x ls)) words.old at free last q most (told_literals free q result) words.new }
{
    let mut r = Literals {
        at,
        free,
        condition: q,
    };
    loop {
        let t = see(text, r.at);
        if t.kind != Kind::Sign(Sign::Ampersand) {
            return Ok(r);
        }
        r = literal(text, words, last, r.free, t.after, r.condition, most)?;
    }
}
