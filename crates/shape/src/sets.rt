// Sets of letters that stand one behind the other, 64 at most: bit x of a word is for the letter x places behind the first.

ghost use Rattle.std.specs.Prelude.{Bool, not, ◌&&◌, ◌≡◌, ℕ, ◌+◌, ◌-◌, ◌≤◌, ◌<◌, eqb};
ghost use Rattle.shape.specs.Sets.{has, Passing};
ghost use Rattle.shape.specs.Lowest.{Lowest};

// The set, if the test holds.
pub(crate) fn kept(test: bool, set: u64) -> u64
    ensures { (x : ℕ) → has x result ≡ test && has x set }
{
    if test { set } else { 0 }
}

// The letters of a set that another has not.
pub(crate) fn without(set: u64, other: u64) -> u64
    ensures { (x : ℕ) → has x result ≡ not (has x other) && has x set }
{
    set ^ (set & other)
}

// One letter, where it is one of the 64 from `first` on.
pub(crate) fn one(letter: usize, first: usize) -> u64
    ensures { Passing (eqb letter) first (first + 64) result }
{
    if letter < first {
        return 0;
    }
    let place = letter - first;
    if 64 <= place {
        return 0;
    }
    1 << place
}

// The set of one letter more in front, which is in it if the test holds.
pub(crate) fn in_front(test: bool, set: u64) -> u64
    ensures { (has 0 result ≡ test) × ((x : ℕ) → x < 63 → has (x + 1) result ≡ has x set) }
{
    let moved = set << 1;
    if test { moved | 1 } else { moved }
}

// The lowest letter of a set, whose letters are those from `first` on, if one is below `stop`.
fn lowest_in(set: u64, first: usize, stop: usize) -> Option<usize>
    requires { (first < stop) × (stop ≤ first + 64) }
    ensures { Lowest (λ i. has (i - first) set) first stop result }
{
    let place = set.trailing_zeros() as usize;
    if place < stop - first {
        Some(first + place)
    } else {
        None
    }
}

// The lowest letter from `first` on and below `end` that passes a test: `passing` has those that pass, of the letters from one on and below another.
pub(crate) fn lowest_by<F: Fn(usize, usize) -> u64>(
    first: usize,
    end: usize,
    passing: F,
) -> Option<usize>
    requires { F.IsAlwaysCallable passing }
    ensures { (test : ℕ → Bool) → ((from stop set : ℕ) → F.post passing from stop set → stop ≤ from + 64 → Passing test from stop set) → Lowest test first end result }
{
    for from in (first..end).step_by(64) {
        let stop = from + (end - from).min(64);
        let set = passing(from, stop);
        if let Some(letter) = lowest_in(set, from, stop) {
            return Some(letter);
        }
    }
    None
}
