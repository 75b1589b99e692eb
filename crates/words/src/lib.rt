// Words of four numbers below 65,536 (specs/Words.antt): rows, links and cells are kept in them, and lent to C so. The kinds of rows
// (rows.rt). And the word at an index, for all that goes over tables of words.
#![tactic(auto)]

ghost use Rattle.std.specs.Prelude.{◌≡◌, ◌<◌, ◌*◌, ◌/◌, ◌%◌, ◌^◌, min, get_or};
ghost use Rattle.words.specs.Words.{quad, part0, part1, part2, part3};

mod rows;

pub use rows::RowKind;

// The word of four numbers, each by its lowest 16 bits. A number and not a struct of four: tables and lent words are read as numbers by the definitions.
pub fn quad(a: usize, b: usize, c: usize, d: usize) -> u64
    ensures { result ≡ quad a b c d }
{
    (a % 65536) as u64
        + 65536 * ((b % 65536) as u64 + 65536 * ((c % 65536) as u64 + 65536 * ((d % 65536) as u64)))
}

// One of the four numbers, counted from 0.
fn part<const K: usize>(word: u64) -> usize
    requires { K < 4 }
    ensures { result ≡ word / 2 ^ (16 * K) % 65536 }
{
    (word >> (16 * K)) as usize % 65536
}

// four names in place of `part::<0>` to `part::<3>`, no plainer: definitions and theorems name each of them so, and they ask nothing of K
pub fn part0(word: u64) -> usize
    ensures { result ≡ part0 word }
{
    part::<0>(word)
}

pub fn part1(word: u64) -> usize
    ensures { result ≡ part1 word }
{
    part::<1>(word)
}

pub fn part2(word: u64) -> usize
    ensures { result ≡ part2 word }
{
    part::<2>(word)
}

pub fn part3(word: u64) -> usize
    ensures { result ≡ part3 word }
{
    part::<3>(word)
}

// The word at an index, and 0 where there is none.
pub fn word_at(words: &[u64], index: usize) -> u64
    ensures { result ≡ get_or words.now index 0 }
{
    words.get(index).copied().unwrap_or(0)
}

// The smaller of two numbers: `min` of std. It stays for those who call it by the name that the README has.
pub fn least(a: usize, b: usize) -> usize
    ensures { result ≡ min a b }
{
    a.min(b)
}
