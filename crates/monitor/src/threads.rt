// The thread that each letter goes on in, from the table's rows (specs/Threads.antt).
ghost use Rattle.std.specs.Prelude.{◌≡◌, ◌<◌};
ghost use Rattle.monitor.specs.Threads.{going_on, operand_number, row_number, thread_of, with_thread, threads_of};

use words::{RowKind, part1, part3};

// The number of a row below a `*` or in the left operand of a `,`: the thread of the row above, in which more may follow.
fn going_on(number: u16) -> u16
    ensures { result ≡ going_on number }
{
    number / 2 * 2 + 1
}

// The number of a row, by the word of the row above it and that row's number.
fn operand_number(above: u64, number: u16, row: usize) -> u16
    requires { row < 1024 }
    ensures { result ≡ operand_number above number row }
{
    let is_left = part1(above) == row;
    match RowKind::of(above) {
        Some(RowKind::Sequence) => if is_left { going_on(number) } else { number },
        Some(RowKind::Alternative) => number,
        Some(RowKind::Star) => going_on(number),
        Some(RowKind::Pipe) => if is_left { number } else { 2 * (row as u16) },
        Some(RowKind::Letter) | None => 0,
    }
}

// The number of a row, by those of the rows before it.
fn row_number(table: &[u64; 1024], numbers: &[u16; 1024], row: usize) -> u16
    requires { row < 1024 }
    ensures { result ≡ row_number table.now numbers.now row }
{
    let up = part3(table[row]);
    if up < row {
        return operand_number(table[up], numbers[up], row);
    }
    0
}

// The row of the thread that a letter goes on in, by its row's number. 0 for none, as the tables have it (`THREADS`).
fn thread_of(number: u16) -> u64
    ensures { result ≡ thread_of number }
{
    if number % 2 == 0 {
        return 0;
    }
    u64::from(number / 2)
}

// Stores the row of the thread that the letter of a row goes on in, or 0, if the row's word is a letter's.
fn put_thread(word: u64, number: u16, threads: &mut [u64; 256])
    ensures { threads.new ≡ with_thread threads.old word number }
{
    if let Some(RowKind::Letter) = RowKind::of(word) {
        let letter = part1(word);
        if letter < 256 {
            threads[letter] = thread_of(number);
        }
    }
}

// For all letters the row of the thread that each goes on in, or 0. A row stands behind the row above it, so one pass is enough.
pub(crate) fn threads_of(table: &[u64; 1024], rows: usize) -> [u64; 256]
    ensures { result ≡ threads_of table.now rows }
{
    let count = rows.min(1024);
    let mut numbers = [0u16; 1024];
    let mut threads = [0u64; 256];
    for row in 0..count {
        let number = row_number(table, &numbers, row);
        numbers[row] = number;
        put_thread(table[row], number, &mut threads);
    }
    threads
}
