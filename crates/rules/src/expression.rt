// Expressions: a letter, a production's name or a parenthesis is an operand; `*`, `@`, `,` and `||` join operands.
ghost use Rattle.std.specs.Prelude.{◌≡◌, IfOk, IfSome, MatchOption, None, ℕ, ◌+◌, ◌<◌, ◌≤◌, length, List, [], true, false};
ghost use Rattle.lexer.specs.declared.Kind.TheVariants as kind;
ghost use Rattle.lexer.specs.declared.Sign.TheVariants as signs;
ghost use Rattle.meaning.specs.Expression.{Exp};
ghost use Rattle.meaning.specs.Reading.{Level, piped, sequenced, whole};
ghost use Rattle.rules.specs.Parts.{PartIs, present, LetterMade};
ghost use Rattle.rules.specs.Expressions.{told_part, told_parsed, told_turn, LevelIs, pending, Joined, Starring, Starred, Behind, Turned, ClosedBy, Operand, Whole, Named, AnyOpen, by_simple, Expresses, LetterGiven, LetterBegun, EndsLetter};
ghost use Rattle.rules.specs.Seen.{Sees};
ghost use Rattle.rules.specs.Cells.{ProductionAt};
ghost use Rattle.rules.specs.NamesFound.{cell_of, production_at};
ghost use Rattle.rules.specs.Conditions.{ConditionIs};

use super::literals::{Condition, literal_name, more_literals, negated};
use super::names::{NameKind, find};
use super::parts::{Made, Operator, Part, join, letter_part, production_part, starred};
use super::tokens::{Misread, see};
use super::writes::writes;
use lexer::{Kind, Sign, Token};
use refusals::Refusal;
use words::part0;

// An expression that was read, its words, and where to read on.
#[derive(Drop)]
pub(crate) struct Parsed {
    pub(crate) at: usize,
    pub(crate) free: usize,
    pub(crate) part: Part,
}

// A letter whose literals are read, with the writes whose last link is `link`.
fn put_letter(words: &mut [u64], free: usize, at: usize, q: Condition, link: usize) -> Parsed
    requires { (free + 3 ≤ length words.old) × (length words.old ≤ 65535) × (1 ≤ free) × (q.link < free) × (link < free) × (q.held < free) }
    ensures { (result.at ≡ at) × LetterMade words.old free q link words.new result.free result.part }
{
    let m = letter_part(words, free, q, link);
    Parsed {
        at,
        free: m.free,
        part: m.part,
    }
}

// A letter whose literals are read: its writes, if it has any.
fn letter_end(
    text: &[u8],
    words: &mut [u64],
    last: usize,
    free: usize,
    at: usize,
    q: Condition,
) -> Result<Parsed, Misread>
    requires { LetterGiven text.now words.old at free last q }
    ensures { EndsLetter text.now words.old at free last q (told_parsed free result) words.new }
{
    let t = see(text, at);
    if t.kind != Kind::Sign(Sign::LeftBrace) {
        return Ok(put_letter(words, free, at, q, 0));
    }
    let w = writes(text, words, last, free, t.after)?;
    Ok(put_letter(words, w.free, w.at, q, w.link))
}

// A letter of which some literals are read: those that follow, and its writes.
fn letter_rest(
    text: &[u8],
    words: &mut [u64],
    last: usize,
    free: usize,
    at: usize,
    q: Condition,
) -> Result<Parsed, Misread>
    requires { LetterBegun text.now words.old at free last q }
    ensures { EndsLetter text.now words.old at free last q (told_parsed free result) words.new }
{
    let m = more_literals(text, words, last, free, at, q, 2)?;
    letter_end(text, words, last, m.free, m.at, m.condition)
}

// A condition of no literals.
pub(crate) fn no_literals() -> Condition
    ensures { ((P : List ℕ) → (c : ℕ) → 1 ≤ c → ConditionIs P c result []) × (result.tests ≡ 0) × (result.held ≡ 0) }
{
    Condition {
        look: 0,
        want: 0,
        agrees: true,
        tests: 0,
        link: 0,
        held: 0,
    }
}

// The expression of the production that was found, if it is one.
fn production_found(words: &[u64], found: Option<usize>) -> Option<Part>
    requires { (cell_of found < length words.now) × (production_at words.now (cell_of found) ≡ true → (c : ℕ) × (e : Exp) × (c ≤ length words.now) × ProductionAt words.now c (cell_of found) e) × IfSome found (λ cell. cell ≡ 0 → ⊥) }
    ensures { MatchOption result (production_at words.now (cell_of found) ≡ false)
        (λ part. (production_at words.now (cell_of found) ≡ true) × ((c : ℕ) → (e : Exp) → ProductionAt words.now c (cell_of found) e → PartIs words.now c part e)) }
{
    let cell = found?;
    if part0(words[cell]) != NameKind::Production.number() {
        return None;
    }
    Some(production_part(words, cell))
}

// An operand that is no parenthesis, of which `t` is the first token: a letter, or a production's name.
fn simple_operand(
    text: &[u8],
    words: &mut [u64],
    last: usize,
    free: usize,
    t: Token,
) -> Result<Parsed, Misread>
    requires { Named text.now words.old t.place free last × ((pos : ℕ) × Sees text.now pos t) × (t.kind ≡ kind.Sign signs.LeftParen → ⊥) }
    ensures { Expresses text.now words.old t.place free last AnyOpen (by_simple text.now t) (told_parsed free result) words.new × IfOk result (λ p. t.place < p.at) }
{
    if t.kind == Kind::Sign(Sign::Bang) {
        let l = negated(text, words, last, free, t.after, no_literals(), 2)?;
        return letter_rest(text, words, last, l.free, l.at, l.condition);
    }
    if t.kind != Kind::Name {
        return Err(Misread::misplaced(t));
    }
    let found = find(text, words, last, t.place, t.after);
    match production_found(words, found) {
        Some(part) => Ok(Parsed {
            at: t.after,
            free,
            part,
        }),
        None => {
            let l = literal_name(text, words, last, free, no_literals(), 2, found, t)?;
            letter_rest(text, words, last, l.free, l.at, l.condition)
        }
    }
}

// A level of parentheses: what stands left of the last `||`, of the last `,` behind that, and of an `@` behind that.
#[derive(Clone, Copy)]
pub(crate) struct Depth {
    pub(crate) alts: Option<Part>,
    pub(crate) seqs: Option<Part>,
    pub(crate) left: Option<Part>,
}

// An operand with the `@` before it.
fn piped(words: &mut [u64], free: usize, l: Depth, part: Part) -> Made
    requires { (free + pending l ≤ length words.old) × (length words.old ≤ 65535) × ((L : Level) × LevelIs words.old free l L) × ((e : Exp) × PartIs words.old free part e) }
    ensures { Joined words.old free l part (present l.left) piped words.new result.free result.part }
{
    join(words, free, Operator::Pipe, l.left, part)
}

// An operand with the `@` and the `,` before it.
fn sequenced(words: &mut [u64], free: usize, l: Depth, part: Part) -> Made
    requires { (free + pending l ≤ length words.old) × (length words.old ≤ 65535) × ((L : Level) × LevelIs words.old free l L) × ((e : Exp) × PartIs words.old free part e) }
    ensures { Joined words.old free l part (present l.seqs + present l.left) sequenced words.new result.free result.part }
{
    let m = piped(words, free, l, part);
    join(words, m.free, Operator::Sequence, l.seqs, m.part)
}

// An operand with the `@`, the `,` and the `||` before it.
fn whole(words: &mut [u64], free: usize, l: Depth, part: Part) -> Made
    requires { (free + pending l ≤ length words.old) × (length words.old ≤ 65535) × ((L : Level) × LevelIs words.old free l L) × ((e : Exp) × PartIs words.old free part e) }
    ensures { Joined words.old free l part (pending l) whole words.new result.free result.part }
{
    let m = sequenced(words, free, l, part);
    join(words, m.free, Operator::Choice, l.alts, m.part)
}

// No level yet.
fn no_level() -> Depth
    ensures { (result.alts ≡ None) × (result.seqs ≡ None) × (result.left ≡ None) }
{
    Depth {
        alts: None,
        seqs: None,
        left: None,
    }
}

// An operand with the `*` behind it, if there is one.
fn with_star(text: &[u8], words: &mut [u64], free: usize, at: usize, part: Part) -> Parsed
    requires { Starring text.now words.old at free part }
    ensures { Starred text.now words.old at free part result words.new }
{
    let t = see(text, at);
    if t.kind != Kind::Sign(Sign::Star) {
        return Parsed { at, free, part };
    }
    let m = starred(words, free, part);
    Parsed {
        at: t.after,
        free: m.free,
        part: m.part,
    }
}

// What follows an operand: an operator, and the level behind it; or the end of the level, and all of it as one part.
#[derive(Drop)]
pub(crate) enum Turn {
    On(Further),
    Done(Parsed),
}

// A level that goes on, its words, and where to read on.
#[derive(Clone, Copy)]
pub(crate) struct Further {
    pub(crate) at: usize,
    pub(crate) free: usize,
    pub(crate) level: Depth,
}

// Behind an operand that has its `*` or not.
fn behind_operand(
    text: &[u8],
    words: &mut [u64],
    free: usize,
    at: usize,
    part: Part,
    l: Depth,
) -> Result<Turn, Misread>
    requires { Behind text.now words.old at free l part }
    ensures { Turned text.now words.old at free part l (told_turn free l result) words.new }
{
    let t = see(text, at);
    // no plainer as a match: a pattern within a pattern gives the proof no fact in `_`
    if t.kind == Kind::Sign(Sign::Star) {
        return Err(Misread::misplaced(t));
    }
    if t.kind == Kind::Sign(Sign::At) {
        if l.left.is_some() {
            return Err(Misread::misplaced(t));
        }
        return Ok(Turn::On(Further {
            at: t.after,
            free,
            level: Depth {
                left: Some(part),
                ..l
            },
        }));
    }
    if t.kind == Kind::Sign(Sign::Comma) {
        let m = sequenced(words, free, l, part);
        return Ok(Turn::On(Further {
            at: t.after,
            free: m.free,
            level: Depth {
                seqs: Some(m.part),
                left: None,
                ..l
            },
        }));
    }
    let m = whole(words, free, l, part);
    if t.kind == Kind::Sign(Sign::DoubleBar) {
        return Ok(Turn::On(Further {
            at: t.after,
            free: m.free,
            level: Depth {
                alts: Some(m.part),
                seqs: None,
                left: None,
            },
        }));
    }
    Ok(Turn::Done(Parsed {
        at,
        free: m.free,
        part: m.part,
    }))
}

// Behind `)`, which must stand at the end of `p`.
fn closed(text: &[u8], p: Parsed) -> Result<Parsed, Misread>
    ensures { ClosedBy text.now (told_part p) (told_parsed p.free result) }
{
    let t = see(text, p.at);
    if t.kind != Kind::Sign(Sign::RightParen) {
        return Err(Misread::misplaced(t));
    }
    Ok(Parsed { at: t.after, ..p })
}

// An operand: a letter, a production's name, or a parenthesis, of which `levels` more may be opened.
#[cycle(expression_operand)]
fn operand(
    text: &[u8],
    words: &mut [u64],
    last: usize,
    free: usize,
    at: usize,
    levels: usize,
) -> Result<Parsed, Misread>
    requires { Named text.now words.old at free last × (levels ≤ 32) }
    ensures { Operand text.now words.old at free last levels (told_parsed free result) words.new }
{
    let t = see(text, at);
    if t.kind != Kind::Sign(Sign::LeftParen) {
        return simple_operand(text, words, last, free, t);
    }
    if levels == 0 {
        return Err(Misread::refused(t, Refusal::Crowded));
    }
    let e = expression(text, words, last, free, t.after, levels - 1)?;
    closed(text, e)
}

// A whole expression, up to before the token that closes it.
#[cycle(expression_operand)]
pub(crate) fn expression(
    text: &[u8],
    words: &mut [u64],
    last: usize,
    free: usize,
    at: usize,
    levels: usize,
) -> Result<Parsed, Misread>
    requires { Named text.now words.old at free last × (levels ≤ 32) }
    ensures { Whole text.now words.old at free last levels (told_parsed free result) words.new }
{
    let mut level = no_level();
    let mut pos = at;
    let mut used = free;
    loop {
        let p = operand(text, words, last, used, pos, levels)?;
        let s = with_star(text, words, p.free, p.at, p.part);
        match behind_operand(text, words, s.free, s.at, s.part, level)? {
            Turn::On(further) => {
                level = further.level;
                pos = further.at;
                used = further.free;
            }
            Turn::Done(parsed) => return Ok(parsed),
        }
    }
}
