// What moves of a watch, in one lent block of words (specs/State.antt): reading it into the arrays that a tick works on, and storing
// what a good tick leaves.
ghost use Rattle.std.specs.Prelude.{◌≡◌, cond, suc, ◌+◌, ◌%◌, ◌<◌, ◌≤◌, min, eqb};
ghost use Rattle.monitor.specs.Ticks.{if_marked, each_marked};
ghost use Rattle.live.specs.State.{stored, byte_of, joined, marks_in, values_in, windows_in, spread, gather, with_marks, one_more, with_totals, with_values, with_windows};

use words::{part0, part1, part2, part3, quad};

// Where things stand.
pub(crate) const TICKS: usize = 0;

pub(crate) const STOPPED: usize = 1;

pub(crate) const BEFORE: usize = 2;

// The marks, eight a word.
const MARKS: usize = 32;

pub(crate) const VALUES: usize = 16;

pub(crate) const TOTALS: usize = 320;

// The windows of limits, four numbers a word; which of these words has the number of limits, in part 1.
const WINDOWS: usize = 576;

const LIMITS: usize = 838;

// ---- reading

// The eight bytes of a word, from a place on.
#[tactic(auto, unfolding(crate::specs::State::stored, crate::specs::State::byte_of))]
fn put_bytes(word: u64, at: usize, marks: &mut [u8; 288])
    requires { at + 7 < 288 }
    ensures { marks.new ≡ stored (λ j. byte_of j word) at 8 marks.old }
{
    marks[at..at + 8].copy_from_slice(&word.to_le_bytes());
}

// The marks.
#[tactic(auto, unfolding(crate::specs::State::marks_from))]
pub(crate) fn marks_in(state: &[u64; 1024]) -> [u8; 288]
    ensures { result ≡ marks_in state.now }
{
    let mut marks = [0u8; 288];
    for i in 0..36 {
        put_bytes(state[MARKS + i], 8 * i, &mut marks);
    }
    marks
}

// The store values. An index by hand, since `copy_from_slice` took 11 ns in place of 3.
#[tactic(auto, unfolding(crate::specs::State::values_from))]
pub(crate) fn values_in(state: &[u64; 1024]) -> [u64; 16]
    ensures { result ≡ values_in state.now }
{
    let mut values = [0u64; 16];
    for i in 0..16 {
        values[i] = state[VALUES + i];
    }
    values
}

// Four numbers of a word, from a place on.
fn put_spread(word: u64, at: usize, windows: &mut [u16; 1056])
    requires { at + 3 < 1056 }
    ensures { windows.new ≡ spread word at windows.old }
{
    windows[at] = part0(word) as u16;
    windows[at + 1] = part1(word) as u16;
    windows[at + 2] = part2(word) as u16;
    windows[at + 3] = part3(word) as u16;
}

// The windows of limits, or zeros where there are no limits.
#[tactic(auto, unfolding(crate::specs::State::windows_from))]
pub(crate) fn windows_in(state: &[u64; 1024]) -> [u16; 1056]
    ensures { result ≡ windows_in state.now }
{
    let mut windows = [0u16; 1056];
    if part1(state[LIMITS]) == 0 {
        return windows;
    }
    for i in 0..264 {
        put_spread(state[WINDOWS + i], 4 * i, &mut windows);
    }
    windows
}

// ---- storing

// Eight bytes from a place on, as a word: one load when compiled. They are named one by one, since `copy_from_slice` into an array of
// eight took three times as long.
#[tactic(auto, unfolding(crate::specs::State::joined))]
fn join_eight(marks: &[u8; 288], at: usize) -> u64
    requires { at + 7 < 288 }
    ensures { result ≡ joined 8 marks.now at }
{
    u64::from_le_bytes([
        marks[at],
        marks[at + 1],
        marks[at + 2],
        marks[at + 3],
        marks[at + 4],
        marks[at + 5],
        marks[at + 6],
        marks[at + 7],
    ])
}

// The marks.
#[tactic(auto, unfolding(crate::specs::State::stored))]
pub(crate) fn put_marks(marks: &[u8; 288], state: &mut [u64; 1024])
    ensures { state.new ≡ with_marks marks.now state.old }
{
    for i in 0..36 {
        state[MARKS + i] = join_eight(marks, 8 * i);
    }
}

// A total, with one more if its letter is marked, in 32 bits. There is no branch when compiled.
fn counted(total: u64, mark: u8) -> u64
    ensures { result ≡ cond (eqb mark 0) total (suc total % 4294967296) }
{
    if mark == 0 {
        total
    } else {
        total.wrapping_add(1) % 4294967296
    }
}

// One letter.
fn count_if(letter: usize, marks: &[u8; 288], state: &mut [u64; 1024])
    requires { letter < 256 }
    ensures { state.new ≡ if_marked marks.now one_more letter state.old }
{
    state[TOTALS + letter] = counted(state[TOTALS + letter], marks[letter]);
}

// Eight letters.
fn count_eight(from: usize, marks: &[u8; 288], state: &mut [u64; 1024])
    requires { from + 8 ≤ 256 }
    ensures { state.new ≡ each_marked marks.now one_more 8 from state.old }
{
    for letter in from..from + 8 {
        count_if(letter, marks, state);
    }
}

// Eight letters, passed over together if none of them is marked.
fn count_some(from: usize, marks: &[u8; 288], state: &mut [u64; 1024])
    requires { from + 8 ≤ 256 }
    ensures { state.new ≡ each_marked marks.now one_more 8 from state.old }
{
    if join_eight(marks, from) != 0 {
        count_eight(from, marks, state);
    }
}

// One more for each marked letter, of 256 at most. Apart from `monitor`'s `count_met`, over numbers of 32 bits, which asks of every
// letter: over words that took 100 ns in place of 19, where 2 of 200 letters are marked.
pub(crate) fn put_totals(letters: usize, marks: &[u8; 288], state: &mut [u64; 1024])
    ensures { state.new ≡ with_totals marks.now (min letters 256) state.old }
{
    let end = letters.min(256);
    let eights = end / 8;
    for eight in 0..eights {
        count_some(8 * eight, marks, state);
    }
    for letter in 8 * eights..end {
        count_if(letter, marks, state);
    }
}

// The store values.
pub(crate) fn put_values(values: &[u64; 16], state: &mut [u64; 1024])
    ensures { state.new ≡ with_values values.now state.old }
{
    state[VALUES..VALUES + 16].copy_from_slice(values);
}

// Four numbers of the windows as a word.
fn gather(windows: &[u16; 1056], at: usize) -> u64
    requires { at + 3 < 1056 }
    ensures { result ≡ gather windows.now at }
{
    quad(
        usize::from(windows[at]),
        usize::from(windows[at + 1]),
        usize::from(windows[at + 2]),
        usize::from(windows[at + 3]),
    )
}

// The windows of limits, where there are limits.
#[tactic(auto, unfolding(crate::specs::State::stored))]
pub(crate) fn put_windows(windows: &[u16; 1056], state: &mut [u64; 1024])
    ensures { state.new ≡ with_windows windows.now state.old }
{
    if windows[1049] == 0 {
        return;
    }
    for i in 0..264 {
        state[WINDOWS + i] = gather(windows, 4 * i);
    }
}
