// Rule 12: two letters side by side whose wire literals one word meets. For one letter its rivals are the others that one word meets together with it; it is at fault
// where it stands side by side with a rival. What a part has of both is made of what its operands have of them, and is made for up to 64 letters at a time, with a set in place of
// each test.

ghost use Rattle.std.specs.Prelude.{not, ◌&&◌, ◌≡◌, ℕ, ◌+◌, ◌≤◌, ◌<◌, false, eqb};
ghost use Rattle.shape.specs.Walk.{kinds, lefts, rights};
ghost use Rattle.shape.specs.Sets.{has, Passing};
ghost use Rattle.shape.specs.Sides.{Sides, letter_sides, linked, seq_sides, alt_sides, star_sides, pipe_sides, rivals, sides_of, fork_at};
ghost use Rattle.shape.specs.Lowest.{Lowest};

use super::sets::{in_front, kept, lowest_by, one, without};
use super::walk::{Summary, walk};
use masks::compatible;
use words::word_at;

// What a part has of letters and their rivals: whether the part is nullable; the letters that can come first in it, and those of which a rival can; the letters that can come
// next after one of those that can come last in it, and those of which a rival can; and the letters that come first in a thread of it together with a rival, or next after the same
// letter.
#[derive(Clone, Copy)]
pub(crate) struct SideSets {
    pub nullable: bool,
    pub first_own: u64,
    pub first_rival: u64,
    pub next_own: u64,
    pub next_rival: u64,
    pub fork: u64,
}

// A letter, by the set that has it alone and the set of those whose rival it is.
fn letter_sides(own: u64, rival: u64) -> SideSets
    ensures { (x : ℕ) → sides_of x result ≡ letter_sides (has x own) (has x rival) }
{
    SideSets {
        nullable: false,
        first_own: own,
        first_rival: rival,
        next_own: 0,
        next_rival: 0,
        fork: 0,
    }
}

// What comes first in f comes next after what comes last in e: the letters that this has side by side with a rival.
fn linked(e: SideSets, f: SideSets) -> u64
    ensures { (x : ℕ) → has x result ≡ linked (sides_of x e) (sides_of x f) }
{
    (f.first_own & (e.next_rival | f.first_rival)) | (f.first_rival & e.next_own)
}

impl Summary for SideSets {
    ghost One = { Sides };

    ghost of = { sides_of };

    ghost nothing_of = { letter_sides false false };

    ghost seq_of = { seq_sides };

    ghost alt_of = { alt_sides };

    ghost star_of = { star_sides };

    ghost pipe_of = { pipe_sides };

    fn nothing() -> SideSets {
        letter_sides(0, 0)
    }

    fn seq(self, f: SideSets) -> SideSets {
        SideSets {
            nullable: self.nullable & f.nullable,
            first_own: self.first_own | kept(self.nullable, f.first_own),
            first_rival: self.first_rival | kept(self.nullable, f.first_rival),
            next_own: f.next_own | kept(f.nullable, self.next_own | f.first_own),
            next_rival: f.next_rival | kept(f.nullable, self.next_rival | f.first_rival),
            fork: self.fork | (f.fork | linked(self, f)),
        }
    }

    fn alt(self, f: SideSets) -> SideSets {
        SideSets {
            nullable: self.nullable | f.nullable,
            first_own: self.first_own | f.first_own,
            first_rival: self.first_rival | f.first_rival,
            next_own: self.next_own | f.next_own,
            next_rival: self.next_rival | f.next_rival,
            fork: self.fork | f.fork,
        }
    }

    fn star(self) -> SideSets {
        SideSets {
            nullable: true,
            first_own: self.first_own,
            first_rival: self.first_rival,
            next_own: self.next_own | self.first_own,
            next_rival: self.next_rival | self.first_rival,
            fork: self.fork | linked(self, self),
        }
    }

    fn pipe(self, f: SideSets) -> SideSets {
        SideSets {
            nullable: false,
            first_own: self.first_own,
            first_rival: self.first_rival,
            next_own: self.next_own,
            next_rival: self.next_rival,
            fork: (f.first_own & f.first_rival) | (self.fork | f.fork),
        }
    }
}

// Where the letters from `first` on that have masks end: at `stop`, if no letter below it has none.
fn masks_end(first: usize, stop: usize) -> usize
    ensures { (first ≤ stop → first ≤ result) × (first < result → result ≤ 256) × (result < stop → 256 ≤ result) }
{
    if stop <= 256 {
        return stop;
    }
    if first <= 256 {
        return 256;
    }
    first
}

// Of the letters from `first` on and below `stop`, 64 at most, those that one word meets together with a letter. A letter without masks is met by each word.
// two arrays side by side and no struct of both: `judge_of` and the table of a watch have them apart, and each clause would tell of such a struct at entry and at exit, which is no plainer
fn met_with(look: &[u64; 256], want: &[u64; 256], letter: usize, first: usize, stop: usize) -> u64
    ensures { Passing (λ i. rivals look.now want.now i letter) first stop result }
{
    let own_look = word_at(look, letter);
    let own_want = word_at(want, letter);
    let mut set = 0xffff_ffff_ffff_ffff;
    let end = masks_end(first, stop);
    for i in (first..end).rev() {
        set = in_front(compatible(look[i], want[i], own_look, own_want), set);
    }
    set
}

// What a letter's row has.
fn letter_at(
    look: &[u64; 256],
    want: &[u64; 256],
    letter: usize,
    first: usize,
    stop: usize,
) -> SideSets
    ensures { (x : ℕ) → x < 64 → first + x < stop → sides_of x result ≡ letter_sides (eqb letter (first + x)) (not (eqb letter (first + x)) && rivals look.now want.now (first + x) letter) }
{
    let own = one(letter, first);
    let met = met_with(look, want, letter, first, stop);
    letter_sides(own, without(met, own))
}

// The letters from `first` on and below `stop`, 64 at most, that are side by side with a rival in the monitor at `row`, whose last letters are followed by its first ones, as in a
// star.
fn forks_from(
    table: &[u64],
    look: &[u64; 256],
    want: &[u64; 256],
    row: usize,
    first: usize,
    stop: usize,
) -> u64
    ensures { Passing (fork_at (kinds table.now) (lefts table.now) (rights table.now) look.now want.now row) first stop result }
{
    let letter = |letter: usize| letter_at(look, want, letter, first, stop);
    let e = walk(table, &letter, 1024, row);
    let again = e.star();
    again.fork
}

// The lowest letter from `first` on and below `end` that is side by side with a rival.
pub(crate) fn lowest_fork(
    table: &[u64],
    look: &[u64; 256],
    want: &[u64; 256],
    row: usize,
    first: usize,
    end: usize,
) -> Option<usize>
    ensures { Lowest (fork_at (kinds table.now) (lefts table.now) (rights table.now) look.now want.now row) first end result }
{
    lowest_by(first, end, |from, stop| {
        forks_from(table, look, want, row, from, stop)
    })
}
