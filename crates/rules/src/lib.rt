// Opening a rule text (docs/REFERENCE.md, G, N, S and W1). `open` takes every text.
#![tactic(auto)]

mod counted;
mod declarations;
mod definitions;
mod expression;
mod lay;
mod limits;
mod literals;
mod names;
mod opening;
mod parts;
mod statements;
mod tokens;
mod writes;

ghost use Rattle.std.specs.Prelude.{◌≡◌, cond, eqb, length, take, replicate, set, ◌+◌, ◌*◌, ◌<◌, ◌≤◌, []};
ghost use Rattle.std.proofs.lemmas.List.Edits.{sets};
ghost use Rattle.meaning.specs.Opening.{counts_of, open_text};
ghost use Rattle.shape.specs.Walk.{kinds};
ghost use Rattle.words.specs.Words.{part0};
ghost use Rattle.rules.specs.declared.Refused.TheVariants.{AtByte};
ghost use Rattle.rules.specs.Watches.{letters_from, empty_watch, watch_of, shown_outcome};

use counted::counted_letters;
use lay::Tables;
use opening::{Starts, open_monitors};
use refusals::Refusal;
use statements::read;
use tokens::Misread;
use windows::windows_of;
use words::RowKind;

// A watch. Each row in one word, and letters, as `lay` has them (specs/Laying.antt); each letter's row; each
// monitor's own row and first letter; how many rows, letters, monitors, wires and stores there are; the word
// of the last ok tick, 0 at first; the store values; a mark for each active letter and, from 256 on, for each monitor at its
// start; how many ticks were ok, at how many of them each letter was met, and whether a tick was bad; which limits count
// each letter; and the windows of the limits (crate `windows`).
// Between large arrays stands a number: the compiler then copies each array to its place, without a whole watch on the way.
#[derive(Clone, Copy)]
pub struct Watch {
    pub table: [u64; 1024],
    pub rows: usize,
    pub look: [u64; 256],
    pub letters: usize,
    pub want: [u64; 256],
    pub monitors: usize,
    pub held: [u64; 256],
    pub before: u64,
    pub links: [u64; 1024],
    pub wires: usize,
    pub numbers: [u64; 1024],
    pub stores: usize,
    pub places: [u16; 256],
    pub own: [u16; 32],
    pub firsts: [u16; 32],
    pub values: [u64; 16],
    pub marks: [u8; 288],
    pub ticks: u64,
    pub totals: [u32; 256],
    pub stopped: bool,
    pub counted: [u8; 256],
    pub windows: [u16; 1056],
}

/// How many rows and letters an opened text has.
#[derive(Clone, Copy, Debug, PartialEq, Eq)]
pub struct Counts {
    pub rows: usize,
    pub letters: usize,
}

/// Why a text is turned away: at the place of a byte, or by a monitor and its letter.
#[derive(Clone, Copy, Debug, PartialEq, Eq)]
pub enum Refused {
    AtByte(Refusal, usize),
    AtLetter(Refusal, usize, usize),
}

impl From<Misread> for Refused {
    ghost from_gives = { λ e r. r ≡ AtByte e.why e.place };

    fn from(e: Misread) -> Refused {
        Refused::AtByte(e.why, e.place)
    }
}

// The watch stands beside the outcome, and not in it: it is the empty one where a text is refused, which the contract of `open` promises.
#[derive(Clone, Copy)]
pub struct Start {
    pub outcome: Result<Counts, Refused>,
    pub watch: Watch,
}

// A watch of nothing.
fn no_watch() -> Watch
    ensures { result ≡ empty_watch }
{
    Watch {
        table: [0; 1024],
        look: [0; 256],
        want: [0; 256],
        held: [0; 256],
        before: 0,
        links: [0; 1024],
        numbers: [0; 1024],
        places: [0; 256],
        own: [0; 32],
        firsts: [0; 32],
        rows: 0,
        letters: 0,
        monitors: 0,
        wires: 0,
        stores: 0,
        values: [0; 16],
        marks: [0; 288],
        ticks: 0,
        totals: [0; 256],
        stopped: false,
        counted: [0; 256],
        windows: [0; 1056],
    }
}

// Stores a letter's row, by its word, as the place of the next letter; says how many letters there are then.
fn place_letter(word: u64, row: usize, count: usize, places: &mut [u16; 256]) -> usize
    requires { (row < 1024) × (count ≤ row) × (length places.old ≡ 256) }
    ensures { (result ≡ cond (eqb (part0 word) 0) (count + 1) count) × (places.new ≡ cond (eqb (part0 word) 0) (set places.old count row) places.old) }
{
    if RowKind::of(word) != Some(RowKind::Letter) {
        return count;
    }
    if 256 <= count {
        return count + 1;
    }
    places[count] = row as u16;
    count + 1
}

// The row of each letter: of the first rows, those of kind 0 in order.
fn letter_rows(table: &[u64; 1024], rows: usize) -> [u16; 256]
    requires { (rows ≤ 1024) × (length table.now ≡ 1024) }
    ensures { result ≡ sets (replicate 256 0) 0 (letters_from 0 (kinds (take rows table.now))) }
{
    let mut places = [0u16; 256];
    let mut count: usize = 0;
    for (row, word) in table[..rows].iter().enumerate() {
        count = place_letter(*word, row, count, &mut places);
    }
    places
}

// The marks of so many monitors at their start.
fn start_marks(count: usize) -> [u8; 288]
    requires { count ≤ 32 }
    ensures { result ≡ sets (replicate 288 0) 256 (replicate count 1) }
{
    let mut marks = [0u8; 288];
    marks[256..256 + count].fill(1);
    marks
}

// Words in a longer array, and zeros behind them.
fn padded<const N: usize>(front: &[u64]) -> [u64; N]
    requires { length front.now ≤ N }
    ensures { result ≡ sets (replicate N 0) 0 front.now }
{
    let mut words = [0u64; N];
    words[..front.len()].copy_from_slice(front);
    words
}

// Opens a text that is not overlong into a watch of nothing, with words that have room for it. A refusal leaves the watch.
fn open_in(text: &[u8], words: &mut [u64], watch: &mut Watch) -> Result<Counts, Refused>
    requires { (length text.now ≤ 16384) × (3 * length text.now + 2 ≤ length words.old) × (length words.old ≤ 65535) × (watch.old ≡ empty_watch) }
    ensures { (shown_outcome result ≡ counts_of (open_text text.now)) × (watch.new ≡ watch_of (open_text text.now)) }
{
    let mut kept = [0u64; 24];
    let mut list = [0u16; 32];
    let reading = read(text, words, &mut kept, &mut list)?;
    let mut tables = Tables {
        table: [0; 1024],
        look: [0; 256],
        want: [0; 256],
        held: [0; 256],
        links: [0; 1024],
        numbers: [0; 1024],
    };
    let mut starts = Starts {
        own: [0; 32],
        firsts: [0; 32],
    };
    let monitors = &list[..reading.count];
    let counts = open_monitors(words, monitors, &mut tables, &mut starts)?;
    let limits = &kept[16..16 + reading.limits];
    watch.table = tables.table;
    watch.rows = counts.rows;
    watch.look = tables.look;
    watch.letters = counts.letters;
    watch.want = tables.want;
    watch.monitors = reading.count;
    watch.held = tables.held;
    watch.links = tables.links;
    watch.wires = reading.wires;
    watch.numbers = tables.numbers;
    watch.stores = reading.stores;
    watch.places = letter_rows(&tables.table, counts.rows);
    watch.own = starts.own;
    watch.firsts = starts.firsts;
    watch.values = padded(&kept[..reading.stores]);
    watch.marks = start_marks(reading.count);
    watch.counted = counted_letters(words, monitors, limits);
    watch.windows = windows_of(&padded(limits), reading.limits);
    Ok(counts)
}

// Opens a text with so many words. It is not inlined, so that no caller's frame holds them.
#[inline(never)]
fn open_sized<const WORDS: usize>(text: &[u8], watch: &mut Watch) -> Result<Counts, Refused>
    requires { (length text.now ≤ 16384) × (3 * length text.now + 2 ≤ WORDS) × (WORDS ≤ 65535) × (watch.old ≡ empty_watch) }
    ensures { (shown_outcome result ≡ counts_of (open_text text.now)) × (watch.new ≡ watch_of (open_text text.now)) }
{
    let mut words = [0u64; WORDS];
    open_in(text, &mut words, watch)
}

// Opens a text into a watch of nothing. The words that it is read into are few where the text is short.
fn open_any(text: &[u8], watch: &mut Watch) -> Result<Counts, Refused>
    requires { watch.old ≡ empty_watch }
    ensures { (shown_outcome result ≡ counts_of (open_text text.now)) × (watch.new ≡ watch_of (open_text text.now)) }
{
    if 16384 < text.len() {
        return Err(Refused::AtByte(Refusal::Overlong, 0));
    }
    if 4096 < text.len() {
        return open_sized::<49154>(text, watch);
    }
    if 512 < text.len() {
        return open_sized::<12290>(text, watch);
    }
    open_sized::<1538>(text, watch)
}

// Opens a rule text: a watch with tick count 0, the first store values, each monitor at its start and no letter met, and
// both counts; or the refusal.
pub fn open(text: &[u8]) -> Start
    ensures { (shown_outcome result.outcome ≡ counts_of (open_text text.now)) × (result.watch ≡ watch_of (open_text text.now)) }
{
    let mut start = Start {
        outcome: Ok(Counts {
            rows: 0,
            letters: 0,
        }),
        watch: no_watch(),
    };
    start.outcome = open_any(text, &mut start.watch);
    start
}
