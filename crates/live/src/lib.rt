// A watch as words that a caller lends, for callers who go word by word: opening fills the words, a look reads them, and a take moves
// the block of them that is the watch's state (specs/Calls.antt). Two groups of four blocks: the tables of a tick; its layout, what
// leaving and what asking each row touches, and the state. What a call answers is one number (specs/Codes.antt).
#![tactic(auto)]

mod state;

ghost use Rattle.std.specs.Prelude.{◌≡◌, [], ◌<◌, min, get_or};
ghost use Rattle.meaning.specs.Calls.{looked, took, touched_by};
ghost use Rattle.meaning.specs.Opening.{counts_of, open_text};
ghost use Rattle.rules.specs.Watches.{shown_outcome};
ghost use Rattle.monitor.specs.Calls.{refused_by};
ghost use Rattle.monitor.specs.Limited.{stepped};
ghost use Rattle.monitor.specs.Shown.{shown_refusal};
ghost use Rattle.live.specs.State.{state_in, moved, halted};
ghost use Rattle.live.specs.Calls.{state_block, filled, first_state, opened_in, wires_in, tick_in, reply_in, words_after, touched_with, touched_in, store_in, met_in, ticks_in};
ghost use Rattle.live.specs.Codes.{answer_code, open_code, is_open};

use counts::{COSTS as ASKED, PLACES as LEFT};
use monitor::{
    counts_of, is_bad, layout_of_watch, letter_at, peek_in, refused_by, step_in, tables_of,
    touched_in,
};
use refusals::Refusal;
use rules::{Counts, Refused, Watch, open};
use state::{
    BEFORE, STOPPED, TICKS, TOTALS, VALUES, marks_in, put_marks, put_totals, put_values,
    put_windows, values_in, windows_in,
};
use words::quad;

// The two groups, and the blocks of the second. They go by number, and the words by an array: the C interface lends them so.
const TABLES: usize = 0;

const FRAME: usize = 1;

const LAYOUT: usize = 0;

const PLACES: usize = 1;

const COSTS: usize = 2;

const STATE: usize = 3;

// Where the layout has these numbers.
const LETTERS: usize = 577;

const WIRES: usize = 578;

const STORES: usize = 579;

// What an answer begins with. Numbers, and no enum: the C interface (include/linewatch.h) has them.
const OK: usize = 0;

const BAD: usize = 1;

const REFUSED: usize = 2;

const REFUSED_LETTER: usize = 3;

// ---- opening

// The state of a watch before its first tick.
#[tactic(auto, unfolding(monitor::specs::Ticks::each_marked))]
fn first_state(watch: &Watch) -> [u64; 1024]
    ensures { result ≡ first_state watch.now.marks watch.now.values watch.now.windows }
{
    let mut state = [0u64; 1024];
    put_marks(&watch.marks, &mut state);
    put_values(&watch.values, &mut state);
    put_windows(&watch.windows, &mut state);
    state
}

// Lays a watch out in words. It is not inlined, so that what it makes on the way lies in no frame while the text is read.
#[inline(never)]
fn fill(watch: &Watch, words: &mut [[[u64; 1024]; 4]; 2])
    ensures { words.new ≡ filled watch.now words.old }
{
    words[TABLES] = tables_of(watch);
    words[FRAME][LAYOUT] = layout_of_watch(watch);
    let counts = counts_of(watch);
    words[FRAME][PLACES] = counts[LEFT];
    words[FRAME][COSTS] = counts[ASKED];
    words[FRAME][STATE] = first_state(watch);
}

fn byte(number: u8) -> usize
    ensures { result ≡ number }
{
    usize::from(number)
}

// An opening as a number.
fn open_code(outcome: Result<Counts, Refused>) -> u64
    ensures { result ≡ open_code (shown_outcome outcome) }
{
    match outcome {
        Ok(counts) => quad(OK, counts.rows, counts.letters, 0),
        Err(Refused::AtByte(why, place)) => quad(REFUSED, byte(why.number()), place, 0),
        Err(Refused::AtLetter(why, monitor, letter)) => quad(
            REFUSED_LETTER,
            byte(why.number()),
            monitor,
            letter,
        ),
    }
}

// Whether a text was accepted.
fn is_open(outcome: Result<Counts, Refused>) -> bool
    ensures { result ≡ is_open (shown_outcome outcome) }
{
    outcome.is_ok()
}

// Opens a rule text into words, and tells both counts; or the refusal, and the words are as they were.
pub fn open_words(text: &[u8], words: &mut [[[u64; 1024]; 4]; 2]) -> u64
    ensures { (result ≡ open_code (counts_of (open_text text.now))) × (words.new ≡ opened_in (open_text text.now) words.old) }
{
    let start = open(text);
    let outcome = start.outcome;
    if is_open(outcome) {
        fill(&start.watch, words);
    }
    open_code(outcome)
}

// ---- one word

// Why a call is refused, if it is, by the state and the number of wires.
fn refusal(words: &[[[u64; 1024]; 4]; 2], word: u64) -> Option<Refusal>
    ensures { shown_refusal result ≡ refused_by (state_in (state_block words.now)).stopped (get_or (state_block words.now) 0 0) (wires_in words.now) word }
{
    let stopped = words[FRAME][STATE][STOPPED] != 0;
    let ticks = words[FRAME][STATE][TICKS];
    let wires = words[FRAME][LAYOUT][WIRES] as usize;
    refused_by(stopped, ticks, wires, word)
}

// What a look does with a word that is not refused. The marks, the store values and the windows go one by one, here and below, since
// reading them into one struct took 64 ns in place of 41.
fn peek_on(
    words: &[[[u64; 1024]; 4]; 2],
    marks: &[u8; 288],
    values: &[u64; 16],
    windows: &[u16; 1056],
    past: u64,
    word: u64,
) -> usize
    ensures { result ≡ (tick_in words.now (record { marks = marks.now; values = values.now; last = past; totals = []; windows = windows.now }) word).answer }
{
    peek_in(
        &words[TABLES],
        &words[FRAME][LAYOUT],
        marks,
        values,
        windows,
        past,
        word,
    )
}

// What a take does with one, and with the marks, the store values and the windows.
fn step_on(
    words: &[[[u64; 1024]; 4]; 2],
    marks: &mut [u8; 288],
    values: &mut [u64; 16],
    windows: &mut [u16; 1056],
    past: u64,
    word: u64,
) -> usize
    ensures { stepped result marks.new values.new windows.new ≡ tick_in words.now (record { marks = marks.old; values = values.old; last = past; totals = []; windows = windows.old }) word }
{
    step_in(
        &words[TABLES],
        &words[FRAME][LAYOUT],
        marks,
        values,
        windows,
        past,
        word,
    )
}

// The rows that a tick touches that follows the marks.
fn touched_on(words: &[[[u64; 1024]; 4]; 2], marks: &[u8; 288]) -> usize
    ensures { result ≡ touched_with words.now marks.now }
{
    touched_in(
        &words[TABLES],
        &words[FRAME][LAYOUT],
        &words[FRAME][PLACES],
        &words[FRAME][COSTS],
        marks,
    )
}

// What a word would come to. The words stay as they are.
pub fn look_words(words: &[[[u64; 1024]; 4]; 2], word: u64) -> u64
    ensures { result ≡ answer_code (looked (reply_in words.now word)) }
{
    if let Some(refused) = refusal(words, word) {
        return quad(REFUSED, usize::from(refused.number()), 0, 0);
    }
    let marks = marks_in(&words[FRAME][STATE]);
    let values = values_in(&words[FRAME][STATE]);
    let windows = windows_in(&words[FRAME][STATE]);
    let past = words[FRAME][STATE][BEFORE];
    let answer = peek_on(words, &marks, &values, &windows, past, word);
    if is_bad(answer) {
        return quad(BAD, answer, 0, 0);
    }
    quad(OK, 0, 0, 0)
}

// The state after a good tick.
fn move_on(
    word: u64,
    letters: usize,
    marks: &[u8; 288],
    values: &[u64; 16],
    windows: &[u16; 1056],
    state: &mut [u64; 1024],
)
    requires { get_or state.old 0 0 < 1000000 }
    ensures { state.new ≡ moved word (min letters 256) marks.now values.now windows.now state.old }
{
    let ticks = state[TICKS];
    state[BEFORE] = word;
    state[TICKS] = ticks + 1;
    put_marks(marks, state);
    put_totals(letters, marks, state);
    put_values(values, state);
    put_windows(windows, state);
}

// The state after a bad one: stopped, and otherwise as before.
fn halt(state: &mut [u64; 1024])
    ensures { state.new ≡ halted state.old }
{
    state[STOPPED] = 1;
}

// What a word comes to, and the rows that its tick touched; the state moves. A refused take leaves it as it was.
pub fn take_words(words: &mut [[[u64; 1024]; 4]; 2], word: u64) -> u64
    ensures { (result ≡ answer_code (took (reply_in words.old word) (touched_by (reply_in words.old word) (touched_in words.old)))) × (words.new ≡ words_after words.old word) }
{
    if let Some(refused) = refusal(words, word) {
        return quad(REFUSED, usize::from(refused.number()), 0, 0);
    }
    let mut marks = marks_in(&words[FRAME][STATE]);
    let rows = touched_on(words, &marks);
    let mut values = values_in(&words[FRAME][STATE]);
    let mut windows = windows_in(&words[FRAME][STATE]);
    let past = words[FRAME][STATE][BEFORE];
    let answer = step_on(words, &mut marks, &mut values, &mut windows, past, word);
    if is_bad(answer) {
        halt(&mut words[FRAME][STATE]);
        return quad(BAD, answer, rows, 0);
    }
    let letters = words[FRAME][LAYOUT][LETTERS] as usize;
    move_on(
        word,
        letters,
        &marks,
        &values,
        &windows,
        &mut words[FRAME][STATE],
    );
    quad(OK, 0, rows, 0)
}

// ---- what a watch holds

// The value of a store, or 0 where there is none.
pub fn store_value(words: &[[[u64; 1024]; 4]; 2], store: usize) -> u64
    ensures { result ≡ store_in words.now store }
{
    let stores = (words[FRAME][LAYOUT][STORES] as usize).min(16);
    if stores <= store {
        0
    } else {
        words[FRAME][STATE][VALUES + store]
    }
}

// At how many ticks a letter of a monitor was met, or 0 where there is none.
pub fn letter_met(words: &[[[u64; 1024]; 4]; 2], monitor: usize, letter: usize) -> u64
    ensures { result ≡ met_in words.now monitor letter }
{
    match letter_at(&words[FRAME][LAYOUT], monitor, letter) {
        None => 0,
        Some(place) => words[FRAME][STATE][TOTALS + place],
    }
}

// How many takes were ok.
pub fn tick_count(words: &[[[u64; 1024]; 4]; 2]) -> u64
    ensures { result ≡ ticks_in words.now }
{
    words[FRAME][STATE][TICKS]
}
