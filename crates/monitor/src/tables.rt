// The tables that a tick is lent, laid out once for many ticks (specs/Calls.antt): through one reference, so that the walk's calls
// pass few arguments. Arrays of fixed length, with their counts in a word: the C interface lends them so.
ghost use Rattle.std.specs.Prelude.{◌≡◌, ◌+◌, ◌≤◌, length};
ghost use Rattle.std.proofs.lemmas.List.Edits.{sets};
ghost use Rattle.monitor.specs.Calls.{writers_of, threaded_of, unthreaded_of, tables_of};

use super::threads::threads_of;
use rules::Watch;
use words::quad;

// The rows, each in one word.
pub(crate) const ROWS: usize = 0;

// The letters' links and their numbers, four of each a letter.
pub(crate) const LINKS: usize = 1;

pub(crate) const NUMBERS: usize = 2;

// The wires that each letter looks at; and from here on the values that it wants.
pub(crate) const LETTERS: usize = 3;

pub(crate) const WANTED: usize = 256;

// From here on the wires that must be as before.
pub(crate) const HELD: usize = 512;

// From here on, in part 0, the row of the thread that each letter goes on in, or 0. In the first of these words also how many
// letters there are up to the last that writes (part 1), up to the last that goes on in a thread (part 2) and before the first that
// does (part 3). 0 and no Option: the C interface lends these words.
pub(crate) const THREADS: usize = 768;

// The two words of a tick: its own, and the one before.
pub(crate) const WORD: usize = 0;

pub(crate) const BEFORE: usize = 1;

// One word a letter into a table, from a place on.
fn place(words: &[u64; 256], at: usize, table: &mut [u64; 1024])
    requires { (at + 256 ≤ 1024) × (length words.now ≡ 256) }
    ensures { table.new ≡ sets table.old at words.now }
{
    table[at..at + 256].copy_from_slice(words);
}

// Of so many letters those up to the last that has a write.
// No plainer as an Option, here and below: a count, which is 0 where there are none, and the loops go over so many.
fn writers_of(links: &[u64; 1024], letters: usize) -> usize
    requires { letters ≤ 256 }
    ensures { result ≡ writers_of links.now letters }
{
    for letter in (0..letters).rev() {
        if links[4 * letter + 2] != 0 || links[4 * letter + 3] != 0 {
            return letter + 1;
        }
    }
    0
}

// Of 256 letters those up to the last that goes on in a thread.
fn threaded_of(threads: &[u64; 256]) -> usize
    ensures { result ≡ threaded_of threads.now 256 }
{
    threads
        .iter()
        .rposition(|row| *row != 0)
        .map_or(0, |letter| letter + 1)
}

// How many letters there are before the first that goes on in a thread.
fn unthreaded_of(threads: &[u64; 256]) -> usize
    ensures { result ≡ unthreaded_of threads.now 256 }
{
    threads.iter().position(|row| *row != 0).unwrap_or(256)
}

// The tables of a watch.
pub fn tables_of(watch: &Watch) -> [[u64; 1024]; 4]
    ensures { result ≡ tables_of watch.now }
{
    let mut letters = [0u64; 1024];
    place(&watch.look, 0, &mut letters);
    place(&watch.want, WANTED, &mut letters);
    place(&watch.held, HELD, &mut letters);
    let threads = threads_of(&watch.table, watch.rows);
    place(&threads, THREADS, &mut letters);
    let writers = writers_of(&watch.links, 256);
    let threaded = threaded_of(&threads);
    let unthreaded = unthreaded_of(&threads);
    letters[THREADS] = quad(threads[0] as usize, writers, threaded, unthreaded);
    let mut tables = [[0u64; 1024]; 4];
    tables[ROWS] = watch.table;
    tables[LINKS] = watch.links;
    tables[NUMBERS] = watch.numbers;
    tables[LETTERS] = letters;
    tables
}
