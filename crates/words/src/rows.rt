// The kinds of a table's rows, by the first number of a row's word (specs/Rows.antt).

ghost use Rattle.std.specs.Prelude.{◌≡◌};
ghost use Rattle.words.specs.Words.{part0};
ghost use Rattle.words.specs.Rows.{kind_number, IsKind};

use super::part0;

/// What a row of a table is: a letter, or an operator with one operand or two.
#[derive(Clone, Copy, Debug, PartialEq, Eq)]
pub enum RowKind {
    Letter,
    // `e , f`
    Sequence,
    // `e || f`
    Alternative,
    // `e*`
    Star,
    // `e @ f`
    Pipe,
}

impl RowKind {
    /// The kind of the row with this word, none where its number names none. No plainer as `TryFrom`, whose error would say no more.
    pub fn of(word: u64) -> Option<RowKind>
        ensures { IsKind result (part0 word) }
    {
        match part0(word) {
            0 => Some(RowKind::Letter),
            1 => Some(RowKind::Sequence),
            2 => Some(RowKind::Alternative),
            3 => Some(RowKind::Star),
            4 => Some(RowKind::Pipe),
            _ => None,
        }
    }

    /// The number that names the kind in a row's word. No plainer as `From`: the name tells which number it is.
    pub fn number(self) -> usize
        ensures { result ≡ kind_number self }
    {
        match self {
            RowKind::Letter => 0,
            RowKind::Sequence => 1,
            RowKind::Alternative => 2,
            RowKind::Star => 3,
            RowKind::Pipe => 4,
        }
    }
}
