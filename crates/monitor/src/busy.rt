// Threads that are busy: a start of each requires a letter at this tick, and so none can be started (docs/REFERENCE.md, F17;
// specs/Ticks.antt). The row of such a thread is kept as one that came to nothing when it was entered.
ghost use Rattle.std.specs.Prelude.{◌≡◌, List, ℕ, ◌+◌, ◌-◌, ◌<◌, ◌≤◌};
ghost use Rattle.monitor.specs.Letters.{given};
ghost use Rattle.monitor.specs.Ticks.{if_marked, each_marked, shut_code, shut_row, shut_for};

use super::tables::{LETTERS, THREADS};
use super::walk::BLOCKED;
use words::part0;

// What is kept of a row that is shut: row 0, which is a monitor's own and stands for no thread, is left as it is.
fn shut_code(row: usize, known: u8) -> u8
    ensures { result ≡ shut_code row known }
{
    if row == 0 {
        return known;
    }
    BLOCKED
}

// Keeps a row as blocked; nothing for one that is not there. Row 0 is stored as it was, since a branch to pass over it would cost
// more: nothing foretells it.
fn shut_row(row: usize, memory: &mut [u8; 1280])
    ensures { memory.new ≡ shut_row row memory.old }
{
    if 1024 <= row {
        return;
    }
    memory[row] = shut_code(row, memory[row]);
}

// The thread that a letter goes on in, if the letter is marked.
fn shut_if(letter: usize, marks: &[u8; 288], tables: &[[u64; 1024]; 4], memory: &mut [u8; 1280])
    requires { letter < 256 }
    ensures { (S W : List ℕ) → memory.new ≡ if_marked marks.now (shut_for (given tables.now S W)) letter memory.old }
{
    if marks[letter] == 0 {
        return;
    }
    shut_row(part0(tables[LETTERS][THREADS + letter]), memory);
}

// The threads that eight letters go on in, of those that are marked.
// Speed: eight in one turn; one `for` over all letters takes up to twice as long.
fn shut_eight(from: usize, marks: &[u8; 288], tables: &[[u64; 1024]; 4], memory: &mut [u8; 1280])
    requires { from + 8 ≤ 256 }
    ensures { (S W : List ℕ) → memory.new ≡ each_marked marks.now (shut_for (given tables.now S W)) 8 from memory.old }
{
    for step in 0..8 {
        shut_if(from + step, marks, tables, memory);
    }
}

// The threads that the marked letters from one up to another go on in. Eight are looked at in one turn, whether one of them is
// marked or not: to ask first costs more, since nothing foretells the answer.
pub(crate) fn shut_marked(
    from: usize,
    to: usize,
    marks: &[u8; 288],
    tables: &[[u64; 1024]; 4],
    memory: &mut [u8; 1280],
)
    requires { to ≤ 256 }
    ensures { (S W : List ℕ) → memory.new ≡ each_marked marks.now (shut_for (given tables.now S W)) (to - from) from memory.old }
{
    let eights = to.saturating_sub(from) / 8;
    for eight in 0..eights {
        shut_eight(from + 8 * eight, marks, tables, memory);
    }
    for letter in from + 8 * eights..to {
        shut_if(letter, marks, tables, memory);
    }
}
