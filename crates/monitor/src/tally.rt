// How many rows a tick touches, by the letters met at the tick before and the monitors that are at their start (specs/Tally.antt).
ghost use Rattle.std.specs.Prelude.{◌≡◌, List, [], ℕ, ◌+◌, ◌/◌, ◌%◌, ◌<◌, ◌≤◌, min, get_or};
ghost use Rattle.words.specs.Words as word;
ghost use Rattle.monitor.specs.Ticks.{places_in, own_in};
ghost use Rattle.monitor.specs.Tally.{counts as counts_from, counts_by, tallied, ask_thread, ask_threads, touch_letter, touch_marked, touch_starts, touched_of};

use super::layout::{layout_of, letters_in, monitors_in, own_of, row_of};
use super::marks::first_marked;
use super::tables::ROWS;
use counts::{COSTS, PLACES, count_in};
use words::{part0, part1, part2, part3, word_at};

// The largest number that is told. No accepted text touches as many rows.
const MOST: usize = 65535;

// Two numbers together.
fn more(count: usize, new: usize) -> usize
    requires { (count ≤ 65535) × (new ≤ 65535) }
    ensures { result ≡ min (count + new) 65535 }
{
    (count + new).min(MOST)
}

// The key of the thread that a row stands in.
fn key_of(place: u64) -> usize
    ensures { result ≡ word.part3 place / 2 % 256 }
{
    part3(place) / 2 % 256
}

// The thread of the `@` in a row is asked: what that touches, unless it was asked before, as on no accepted text.
fn ask_thread(
    row: usize,
    tables: &[[u64; 1024]; 4],
    places: &[u64; 1024],
    costs: &[u64; 1024],
    asked: &mut [u8; 256],
) -> usize
    ensures { (L : List ℕ) → tallied result asked.new ≡ ask_thread (counts_by (get_or tables.now 0 []) places.now costs.now L) row asked.old }
{
    let thread = part2(word_at(&tables[ROWS], row));
    let key = key_of(word_at(places, thread));
    if asked[key] != 0 {
        return 0;
    }
    asked[key] = 1;
    count_in(word_at(costs, thread))
}

// The threads of a chain, each of an `@` further up. The chain is told by one more than a row, or 0.
// No plainer as a `for`: it goes from row to row by what the row's word tells, and not over a range.
fn ask_threads(
    first: usize,
    tables: &[[u64; 1024]; 4],
    places: &[u64; 1024],
    costs: &[u64; 1024],
    asked: &mut [u8; 256],
) -> usize
    ensures { (L : List ℕ) → (asked.new ≡ (ask_threads (counts_by (get_or tables.now 0 []) places.now costs.now L) first first asked.old).asked) × (result ≡ min (ask_threads (counts_by (get_or tables.now 0 []) places.now costs.now L) first first asked.old).count 65535) }
{
    let mut count: usize = 0;
    let mut chain = first;
    while 0 < chain {
        let row = chain - 1;
        count = more(count, ask_thread(row, tables, places, costs, asked));
        let next = part2(word_at(places, row));
        if chain <= next {
            return count;
        }
        chain = next;
    }
    count
}

// A letter was met at the tick before: its row is left.
fn touch_letter(
    letter: usize,
    layout: &[u64; 1024],
    tables: &[[u64; 1024]; 4],
    places: &[u64; 1024],
    costs: &[u64; 1024],
    asked: &mut [u8; 256],
) -> usize
    requires { letter < 256 }
    ensures { (asked.new ≡ (touch_letter (counts_by (get_or tables.now 0 []) places.now costs.now (places_in layout.now)) letter asked.old).asked) × (result ≡ min (touch_letter (counts_by (get_or tables.now 0 []) places.now costs.now (places_in layout.now)) letter asked.old).count 65535) }
{
    let place = word_at(places, row_of(layout, letter));
    if asked[key_of(place)] != 0 {
        return more(
            part1(place),
            ask_threads(part2(place), tables, places, costs, asked),
        );
    }
    more(
        part0(place),
        ask_threads(part2(place), tables, places, costs, asked),
    )
}

// The letters that are marked, in their order: a thread's letters stand behind those that start it.
fn touch_marked(
    letters: usize,
    marks: &[u8; 288],
    layout: &[u64; 1024],
    tables: &[[u64; 1024]; 4],
    places: &[u64; 1024],
    costs: &[u64; 1024],
    asked: &mut [u8; 256],
) -> usize
    requires { letters ≤ 256 }
    ensures { result ≡ min (touch_marked (counts_by (get_or tables.now 0 []) places.now costs.now (places_in layout.now)) marks.now letters 0 asked.old).count 65535 }
{
    let mut count: usize = 0;
    // Speed: from mark to mark, as in `write_marked`.
    let mut letter = first_marked(marks, 0, letters);
    while letter < letters {
        count = more(
            count,
            touch_letter(letter, layout, tables, places, costs, asked),
        );
        letter = first_marked(marks, letter + 1, letters);
    }
    count
}

// The own row of a monitor that is at its start is asked.
fn touch_start(
    monitor: usize,
    marks: &[u8; 288],
    layout: &[u64; 1024],
    costs: &[u64; 1024],
) -> usize
    requires { monitor < 32 }
    ensures { (T P L : List ℕ) → result ≡ touch_starts (counts_by T P costs.now L) (own_in layout.now) marks.now 1 monitor }
{
    if marks[256 + monitor] == 0 {
        return 0;
    }
    count_in(word_at(costs, own_of(layout, monitor)))
}

// The monitors that are at their start.
fn touch_starts(
    monitors: usize,
    marks: &[u8; 288],
    layout: &[u64; 1024],
    costs: &[u64; 1024],
) -> usize
    requires { monitors ≤ 32 }
    ensures { (T P L : List ℕ) → result ≡ min (touch_starts (counts_by T P costs.now L) (own_in layout.now) marks.now monitors 0) 65535 }
{
    let mut count: usize = 0;
    for monitor in 0..monitors {
        count = more(count, touch_start(monitor, marks, layout, costs));
    }
    count
}

// How many rows a tick touches that follows the marks, by the places and the costs of the rows, which `counts_of` lays out: 65,535
// where there are more, as in no accepted text.
pub fn touched_in<'a>(
    tables: &'a [[u64; 1024]; 4],
    layout: &'a [u64; 1024],
    places: &'a [u64; 1024],
    costs: &'a [u64; 1024],
    marks: &'a [u8; 288],
) -> usize
    ensures { result ≡ min (touched_of (counts_by (get_or tables.now 0 []) places.now costs.now (places_in layout.now)) (own_in layout.now) marks.now (get_or layout.now 576 0) (get_or layout.now 577 0)) 65535 }
{
    let monitors = monitors_in(layout).min(32);
    let letters = letters_in(layout).min(256);
    let mut asked = [0u8; 256];
    more(
        touch_starts(monitors, marks, layout, costs),
        touch_marked(letters, marks, layout, tables, places, costs, &mut asked),
    )
}

// The same, with the places and the costs as `counts_of` gives them, and the arrays and numbers that the block is laid out from.
pub fn touched<'a>(
    tables: &'a [[u64; 1024]; 4],
    counts: &'a [[u64; 1024]; 2],
    rows: &'a [u16; 256],
    own: &'a [u16; 32],
    monitors: usize,
    letters: usize,
    marks: &'a [u8; 288],
) -> usize
    ensures { result ≡ min (touched_of (counts_from (get_or tables.now 0 []) counts.now rows.now) own.now marks.now monitors letters) 65535 }
{
    let firsts = [0u16; 32];
    let counted = [0u8; 256];
    let block = layout_of(rows, own, &firsts, &counted, monitors, letters, 0, 0, 0);
    touched_in(tables, &block, &counts[PLACES], &counts[COSTS], marks)
}
