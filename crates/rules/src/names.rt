// The names that are declared. Each has a cell among the words: four numbers that are its kind, the cell of the name
// declared before it (0: none) and its place and length in the text, and then what it means (specs/Cells.antt).
ghost use Rattle.std.specs.Prelude.{◌≡◌, IfErr, ℕ, ◌-◌, ◌<◌, ◌≤◌, length, take, drop};
ghost use Rattle.rules.specs.Cells.{Declared};
ghost use Rattle.rules.specs.NamesFound.{name_number, IsNameKind, FindsCell};
ghost use Rattle.words.specs.Words.{part0};
ghost use Rattle.rules.specs.Seen.{Sees};
ghost use Rattle.rules.specs.Picks.{Picks};
ghost use Rattle.rules.specs.Misreads.{fault_in, or_in};

use super::tokens::Misread;
use lexer::{Kind, Token, equal};
use refusals::Refusal;
use words::{part0, part1, part2, part3};

// What a name is declared as.
#[derive(Clone, Copy, Debug, PartialEq, Eq)]
pub(crate) enum NameKind {
    Wire,
    Store,
    Defined,
    Production,
}

// no plainer as From and TryFrom: `of` answers by an Option, and `From` would not say that the number is a cell's
impl NameKind {
    // The number that names the kind in a cell's first word.
    pub(crate) fn number(self) -> usize
        ensures { result ≡ name_number self }
    {
        match self {
            NameKind::Wire => 0,
            NameKind::Store => 1,
            NameKind::Defined => 2,
            NameKind::Production => 3,
        }
    }

    // The kind of the name whose cell has this first word. A word may hold a number that names none.
    pub(crate) fn of(word: u64) -> Option<NameKind>
        ensures { IsNameKind result (part0 word) }
    {
        match part0(word) {
            0 => Some(NameKind::Wire),
            1 => Some(NameKind::Store),
            2 => Some(NameKind::Defined),
            3 => Some(NameKind::Production),
            _ => None,
        }
    }
}

// The cell of the name whose bytes are those from `place` up to `after`.
pub(crate) fn find(
    text: &[u8],
    words: &[u64],
    last: usize,
    place: usize,
    after: usize,
) -> Option<usize>
    requires { (place ≤ after) × (after ≤ length text.now) × Declared text.now words.now last }
    ensures { FindsCell text.now words.now last (take (after - place) (drop place text.now)) result }
{
    let name = &text[place..after];
    let mut cell = last;
    // no plainer: a cell's word holds the cell before it in 16 bits, 0 for none
    while cell != 0 {
        let head = words[cell];
        let from = part2(head);
        let to = from + part3(head);
        if equal(name, &text[from..to]) {
            return Some(cell);
        }
        cell = part1(head);
    }
    None
}

// The cell of a token that must be a name of a kind; or a refusal, at the token.
pub(crate) fn find_kind(
    text: &[u8],
    words: &[u64],
    last: usize,
    t: Token,
    kind: NameKind,
) -> Result<usize, Misread>
    requires { Declared text.now words.now last × ((pos : ℕ) × Sees text.now pos t) }
    ensures { Picks text.now words.now last t (name_number kind) (fault_in result) (or_in (λ n. n) 0 result) × IfErr result (λ e. e.place ≡ t.place) }
{
    if t.kind != Kind::Name {
        return Err(Misread::misplaced(t));
    }
    let Some(cell) = find(text, words, last, t.place, t.after) else {
        return Err(Misread::refused(t, Refusal::Unknown));
    };
    if part0(words[cell]) != kind.number() {
        return Err(Misread::refused(t, Refusal::Unknown));
    }
    Ok(cell)
}
