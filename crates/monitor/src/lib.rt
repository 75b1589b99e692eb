// The watch at work: `look` answers what a word would come to, and `take` answers the same, tells how many rows the tick touched,
// and gives the watch that it moved on to. For loops, which must not copy a watch, `tables_of`, `layout_of_watch` and `counts_of` lay
// out once what the ticks need; `refused_by`, `peek_in` or `step_in`, `is_bad`, `touched_in` and `count_met` are what a look or a take is made of.
// What they answer is said for every watch, also one that no call ever gave (specs/Calls.antt, specs/Ticks.antt,
// specs/Limited.antt).
#![tactic(auto)]

mod busy;
mod layout;
mod letters;
mod limits;
mod marks;
mod positions;
mod tables;
mod tally;
mod threads;
mod totals;
mod walk;

ghost use Rattle.std.specs.Prelude.{◌≡◌, true, List, [], ◌∷◌, ℕ, suc, ◌≤◌, ◌<◌, min, get_or};
ghost use Rattle.meaning.specs.Calls.{is_stray};
ghost use Rattle.monitor.specs.Letters.{given};
ghost use Rattle.monitor.specs.Ticks.{places_in, own_in, layout, layout_in, within, reached, shut_busy, monitors_go, write_if, write_marked};
ghost use Rattle.windows.specs.Windows.{counted_in};
ghost use Rattle.monitor.specs.Tally.{counts as counts_from, touched_of};
ghost use Rattle.monitor.specs.Limited.{answer_at, is_bad, stepped, tick_of};
ghost use Rattle.monitor.specs.Calls.{state_of, with_state, refused_by, reply_of, touched_for, watch_after};
ghost use Rattle.monitor.specs.Shown.{shown_answer, shown_refusal};

use busy::shut_marked;
pub use counts::counts_of;
use counts::{COSTS, PLACES};
use layout::{letters_in, monitors_in};
pub use layout::{layout_of, layout_of_watch};
use letters::{Tick, write_letter};
use limits::{answer_by, pass_tick, tick_mask};
use marks::{first_marked, put_marks};
use positions::monitors_go;
pub use positions::{letter_at, letters_end};
use refusals::Refusal;
use rules::Watch;
pub use tables::tables_of;
use tables::{LETTERS, THREADS};
pub use tally::{touched, touched_in};
pub use totals::count_met;
use words::{part1, part2, part3};

// ---- what a good tick leaves

// The writes of a letter, if it is marked.
fn write_if(
    letter: usize,
    words: &[u64; 2],
    marks: &[u8; 288],
    tables: &[[u64; 1024]; 4],
    values: &mut [u64; 16],
)
    requires { letter < 256 }
    ensures { (S : List ℕ) → values.new ≡ write_if (given tables.now S words.now) marks.now letter values.old }
{
    if marks[letter] == 0 {
        return;
    }
    write_letter(letter, words, tables, values);
}

// The writes of the marked letters, in their order.
fn write_marked(
    letters: usize,
    words: &[u64; 2],
    marks: &[u8; 288],
    tables: &[[u64; 1024]; 4],
    values: &mut [u64; 16],
)
    requires { letters ≤ 256 }
    ensures { (S : List ℕ) → values.new ≡ write_marked (given tables.now S words.now) marks.now letters 0 values.old }
{
    // Speed: from mark to mark; a `for` that asks each letter takes up to three times as long, since most are unmarked.
    let mut i = first_marked(marks, 0, letters);
    while i < letters {
        write_if(i, words, marks, tables, values);
        i = first_marked(marks, i + 1, letters);
    }
}

// ---- one word

// Every active position of every monitor, of 32 monitors and 256 letters at most, with the threads shut that are busy: the first
// monitor that does not go on, or how many there are. This is what a look and a take have in common.
fn walk_on(layout: &[u64; 1024], marks: &[u8; 288], tick: &Tick, memory: &mut [u8; 1280]) -> usize
    ensures { reached result memory.new ≡ monitors_go (given tick.now.tables.now tick.now.values.now tick.now.words) (within (layout_in layout.now)) marks.now (within (layout_in layout.now)).monitors 0 (shut_busy (given tick.now.tables.now tick.now.values.now tick.now.words) marks.now (within (layout_in layout.now)).letters memory.old) }
{
    let count = monitors_in(layout).min(32);
    let end = letters_in(layout).min(256);
    let from = part3(tick.tables[LETTERS][THREADS]);
    let to = part2(tick.tables[LETTERS][THREADS]).min(end);
    shut_marked(from, to, marks, tick.tables, memory);
    monitors_go(count, end, marks, layout, tick, memory)
}

// The answer to a good tick. A bad one is answered with the first monitor that does not go on, or with 32 and the lowest limit that
// the tick is beyond. A number and no enum: `peek-in-entry`, `step-in-entry` and `is-bad-entry` among the
// demands say what is answered by `answer_at`, `tick_of` and `is_bad` of any such number, and C is handed it as it is.
const FINE: usize = 40;

// Whether an answer is that to a bad tick.
pub fn is_bad(answer: usize) -> bool
    ensures { result ≡ is_bad answer }
{
    answer < FINE
}

// What a look does with a word that is not refused, on lent tables and with the word before: its answer. The block of words is that
// of `layout_of`.
pub fn peek_in<'a>(
    tables: &'a [[u64; 1024]; 4],
    layout: &'a [u64; 1024],
    marks: &'a [u8; 288],
    values: &'a [u64; 16],
    windows: &'a [u16; 1056],
    past: u64,
    word: u64,
) -> usize
    ensures { result ≡ answer_at (given tables.now values.now (word ∷ past ∷ [])) (layout_in layout.now) marks.now (counted_in layout.now) windows.now }
{
    let tick = Tick {
        tables,
        words: [word, past],
        values,
    };
    let mut memory = [0u8; 1280];
    let monitor = walk_on(layout, marks, &tick, &mut memory);
    let letters = letters_in(layout);
    let mask = tick_mask(letters, &memory, layout, windows);
    answer_by(monitor, monitors_in(layout), windows, mask)
}

// What a take does with a word that is not refused: the same, and marks, store values and windows are then those after the tick, or
// as they were where it is bad. The tick count, the stop, the word before and the totals are the caller's to keep.
pub fn step_in<'a>(
    tables: &'a [[u64; 1024]; 4],
    layout: &'a [u64; 1024],
    marks: &mut [u8; 288],
    values: &mut [u64; 16],
    windows: &mut [u16; 1056],
    past: u64,
    word: u64,
) -> usize
    ensures { stepped result marks.new values.new windows.new ≡ tick_of (given tables.now values.old (word ∷ past ∷ [])) (layout_in layout.now) marks.old (counted_in layout.now) windows.old }
{
    let words = [word, past];
    let tick = Tick {
        tables,
        words,
        values,
    };
    let mut memory = [0u8; 1280];
    let monitor = walk_on(layout, marks, &tick, &mut memory);
    let letters = letters_in(layout);
    let mask = tick_mask(letters, &memory, layout, windows);
    let number = answer_by(monitor, monitors_in(layout), windows, mask);
    if is_bad(number) {
        return number;
    }
    put_marks(&memory, marks);
    let writers = part1(tables[LETTERS][THREADS]).min(letters.min(256));
    write_marked(writers, &words, marks, tables, values);
    pass_tick(windows, mask);
    number
}

// The same as `peek_in`, with the arrays and numbers that the block is laid out from. It stays beside it: it has a demand of its
// own (`peek-entry`), as `step` and `touched` have.
pub fn peek<'a>(
    tables: &'a [[u64; 1024]; 4],
    places: &'a [u16; 256],
    own: &'a [u16; 32],
    firsts: &'a [u16; 32],
    monitors: usize,
    letters: usize,
    counted: &'a [u8; 256],
    marks: &'a [u8; 288],
    values: &'a [u64; 16],
    windows: &'a [u16; 1056],
    past: u64,
    word: u64,
) -> usize
    ensures { result ≡ answer_at (given tables.now values.now (word ∷ past ∷ [])) (layout places.now own.now firsts.now monitors letters) marks.now counted.now windows.now }
{
    let block = layout_of(places, own, firsts, counted, monitors, letters, 0, 0, 0);
    peek_in(tables, &block, marks, values, windows, past, word)
}

// The same as `step_in`, with those.
pub fn step<'a>(
    tables: &'a [[u64; 1024]; 4],
    places: &'a [u16; 256],
    own: &'a [u16; 32],
    firsts: &'a [u16; 32],
    monitors: usize,
    letters: usize,
    counted: &'a [u8; 256],
    marks: &mut [u8; 288],
    values: &mut [u64; 16],
    windows: &mut [u16; 1056],
    past: u64,
    word: u64,
) -> usize
    ensures { stepped result marks.new values.new windows.new ≡ tick_of (given tables.now values.old (word ∷ past ∷ [])) (layout places.now own.now firsts.now monitors letters) marks.old counted.now windows.old }
{
    let block = layout_of(places, own, firsts, counted, monitors, letters, 0, 0, 0);
    step_in(tables, &block, marks, values, windows, past, word)
}

// ---- calls

// Why a word is not ok.
#[derive(Clone, Copy, Debug, PartialEq, Eq)]
pub enum Fault {
    // The monitor, or 32 and the limit.
    Bad(usize),
    Refused(Refusal),
}

// What a take answers, and the watch for the next call, which a fault leaves as well.
#[derive(Clone, Copy)]
pub struct Taken {
    pub answer: Result<(), Fault>,
    // How many rows the tick touched; 0 if the take is refused.
    pub touched: usize,
    pub watch: Watch,
}

// Whether the word has a bit above the wires.
fn stray(wires: usize, word: u64) -> bool
    ensures { result ≡ is_stray wires word }
{
    if 64 <= wires {
        return false;
    }
    word >> wires != 0
}

// Why a call is refused (W3 to W5), if it is.
pub fn refused_by(stopped: bool, ticks: u64, wires: usize, word: u64) -> Option<Refusal>
    ensures { shown_refusal result ≡ refused_by stopped ticks wires word }
{
    if stopped {
        return Some(Refusal::Stopped);
    }
    if 1000000 <= ticks {
        return Some(Refusal::Full);
    }
    if stray(wires, word) {
        return Some(Refusal::Stray);
    }
    None
}

// The watch after a bad tick: stopped, and otherwise as before it.
fn stopped(watch: Watch) -> Watch
    ensures { result ≡ with_state watch (record { inner = (state_of watch).inner; oks = watch.ticks; stopped = true }) }
{
    let mut next = watch;
    next.stopped = true;
    next
}

// The watch after a good tick with a word.
fn moved_on(
    watch: Watch,
    marks: [u8; 288],
    values: [u64; 16],
    totals: [u32; 256],
    windows: [u16; 1056],
    word: u64,
) -> Watch
    requires { watch.ticks < 1000000 }
    ensures { result ≡ with_state watch (record { inner = record { marks = marks; values = values; last = word; totals = totals; windows = windows }; oks = suc watch.ticks; stopped = watch.stopped }) }
{
    let mut next = watch;
    next.marks = marks;
    next.values = values;
    next.before = word;
    next.totals = totals;
    next.windows = windows;
    next.ticks = next.ticks + 1;
    next
}

// What the word would come to. It leaves the watch: there is none to give back.
pub fn look(watch: Watch, word: u64) -> Result<(), Fault>
    ensures { shown_answer result ≡ reply_of watch word }
{
    let refused = refused_by(watch.stopped, watch.ticks, watch.wires, word);
    if let Some(refusal) = refused {
        return Err(Fault::Refused(refusal));
    }
    let tables = tables_of(&watch);
    let layout = layout_of_watch(&watch);
    let answer = peek_in(
        &tables,
        &layout,
        &watch.marks,
        &watch.values,
        &watch.windows,
        watch.before,
        word,
    );
    if is_bad(answer) {
        return Err(Fault::Bad(answer));
    }
    Ok(())
}

// How many rows a tick touches, by the counts as `counts_of` gives them.
fn touched_by<'a>(
    tables: &'a [[u64; 1024]; 4],
    layout: &'a [u64; 1024],
    counts: &'a [[u64; 1024]; 2],
    marks: &'a [u8; 288],
) -> usize
    ensures { result ≡ min (touched_of (counts_from (get_or tables.now 0 []) counts.now (places_in layout.now)) (own_in layout.now) marks.now (get_or layout.now 576 0) (get_or layout.now 577 0)) 65535 }
{
    touched_in(tables, layout, &counts[PLACES], &counts[COSTS], marks)
}

// What the word comes to, and the watch after it. A bad tick leaves the watch stopped and otherwise as before it; a refused take
// leaves it as it was.
pub fn take(watch: Watch, word: u64) -> Taken
    ensures { (shown_answer result.answer ≡ reply_of watch word) × (result.touched ≡ touched_for watch word) × (result.watch ≡ watch_after watch word) }
{
    if let Some(refusal) = refused_by(watch.stopped, watch.ticks, watch.wires, word) {
        return Taken {
            answer: Err(Fault::Refused(refusal)),
            touched: 0,
            watch,
        };
    }
    let tables = tables_of(&watch);
    let layout = layout_of_watch(&watch);
    let counts = counts_of(&watch);
    let rows = touched_by(&tables, &layout, &counts, &watch.marks);
    let mut marks = watch.marks;
    let mut values = watch.values;
    let mut windows = watch.windows;
    let answer = step_in(
        &tables,
        &layout,
        &mut marks,
        &mut values,
        &mut windows,
        watch.before,
        word,
    );
    if is_bad(answer) {
        let next = stopped(watch);
        return Taken {
            answer: Err(Fault::Bad(answer)),
            touched: rows,
            watch: next,
        };
    }
    let mut totals = watch.totals;
    count_met(watch.letters, &marks, &mut totals);
    let next = moved_on(watch, marks, values, totals, windows, word);
    Taken {
        answer: Ok(()),
        touched: rows,
        watch: next,
    }
}
