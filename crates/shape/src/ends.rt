// Rule 11: a letter that ends a thread and can also be followed inside it. What a part has of a letter is made of what its operands have of it, and is made for up to 64 letters
// at a time, with a set in place of each test.

ghost use Rattle.std.specs.Prelude.{◌≡◌, ℕ, ◌+◌, ◌<◌, false, eqb};
ghost use Rattle.shape.specs.Walk.{kinds, lefts, rights};
ghost use Rattle.shape.specs.Sets.{has, Passing};
ghost use Rattle.shape.specs.Ends.{Ends, letter_ends, seq_ends, alt_ends, star_ends, pipe_ends, ends_of, open_at};
ghost use Rattle.shape.specs.Lowest.{Lowest};

use super::sets::{kept, lowest_by, one};
use super::walk::{Summary, walk};

// What a part has of letters: whether the part is nullable, and the letters that can come last in it, those that can be followed in it, and those that are an open end of a
// thread in it.
#[derive(Clone, Copy)]
pub(crate) struct EndSets {
    pub nullable: bool,
    pub last: u64,
    pub followed: u64,
    pub fault: u64,
}

// A letter, by the set that has it alone.
fn letter_ends(own: u64) -> EndSets
    ensures { (x : ℕ) → ends_of x result ≡ letter_ends (has x own) }
{
    EndSets {
        nullable: false,
        last: own,
        followed: 0,
        fault: 0,
    }
}

impl Summary for EndSets {
    ghost One = { Ends };

    ghost of = { ends_of };

    ghost nothing_of = { letter_ends false };

    ghost seq_of = { seq_ends };

    ghost alt_of = { alt_ends };

    ghost star_of = { star_ends };

    ghost pipe_of = { pipe_ends };

    fn nothing() -> EndSets {
        letter_ends(0)
    }

    // What comes last in e is followed by f.
    fn seq(self, f: EndSets) -> EndSets {
        EndSets {
            nullable: self.nullable & f.nullable,
            last: f.last | kept(f.nullable, self.last),
            followed: self.followed | f.followed | self.last,
            fault: self.fault | f.fault,
        }
    }

    fn alt(self, f: EndSets) -> EndSets {
        EndSets {
            nullable: self.nullable | f.nullable,
            last: self.last | f.last,
            followed: self.followed | f.followed,
            fault: self.fault | f.fault,
        }
    }

    // What comes last in e is followed by e.
    fn star(self) -> EndSets {
        EndSets {
            nullable: true,
            last: self.last,
            followed: self.followed | self.last,
            fault: self.fault,
        }
    }

    fn pipe(self, f: EndSets) -> EndSets {
        EndSets {
            nullable: false,
            last: self.last,
            followed: self.followed | f.followed,
            fault: (f.last & f.followed) | (self.fault | f.fault),
        }
    }
}

// What a letter's row has of the 64 letters from `first` on.
fn letter_at(letter: usize, first: usize) -> EndSets
    ensures { (x : ℕ) → x < 64 → ends_of x result ≡ letter_ends (eqb letter (first + x)) }
{
    letter_ends(one(letter, first))
}

// The letters of the 64 from `first` on that are an open end of a thread of the monitor at `row`.
fn open_from(table: &[u64], row: usize, first: usize) -> u64
    ensures { Passing (open_at (kinds table.now) (lefts table.now) (rights table.now) row) first (first + 64) result }
{
    let letter = |letter: usize| letter_at(letter, first);
    walk(table, &letter, 1024, row).fault
}

// The lowest letter from `first` on and below `end` that is an open end.
pub(crate) fn lowest_open(table: &[u64], row: usize, first: usize, end: usize) -> Option<usize>
    ensures { Lowest (open_at (kinds table.now) (lefts table.now) (rights table.now) row) first end result }
{
    lowest_by(first, end, |from, _stop| open_from(table, row, from))
}
