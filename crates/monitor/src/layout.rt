// The block of words that a tick is lent beside the tables (specs/Ticks.antt): where the letters and the monitors of a watch stand,
// laid out once for many ticks. Words at fixed places, and no struct: the C interface lends them so. First comes the row of each
// letter, 256 of them.
ghost use Rattle.std.specs.Prelude.{◌≡◌, map, ◌+◌, ◌<◌, ◌≤◌, ◌%◌, length, get_or};
ghost use Rattle.std.proofs.lemmas.List.Edits.{sets};
ghost use Rattle.monitor.specs.Ticks.{places_in, own_in, firsts_in};
ghost use Rattle.monitor.specs.Calls.{LaidBy, LaidOut};

use rules::Watch;
use windows::COUNTED;

// From here on the own row of each monitor, 32 of them.
const OWN: usize = 256;

// From here on the first letter of each monitor. Behind these, from `COUNTED` of `windows` on, the limits that count each letter,
// 256 words.
const FIRSTS: usize = 288;

// How many there are of each. All other words are 0.
const MONITORS: usize = 576;

const LETTERS: usize = 577;

const WIRES: usize = 578;

const STORES: usize = 579;

const ROWS: usize = 580;

// ---- reading

// The row of a letter.
pub(crate) fn row_of(layout: &[u64; 1024], letter: usize) -> usize
    requires { letter < 256 }
    ensures { result ≡ get_or (places_in layout.now) letter 0 }
{
    layout[letter] as usize
}

// The own row of a monitor.
pub(crate) fn own_of(layout: &[u64; 1024], monitor: usize) -> usize
    requires { monitor < 32 }
    ensures { result ≡ get_or (own_in layout.now) monitor 0 }
{
    layout[OWN + monitor] as usize
}

// The first letter of a monitor.
pub(crate) fn first_of(layout: &[u64; 1024], monitor: usize) -> usize
    requires { monitor < 32 }
    ensures { result ≡ get_or (firsts_in layout.now) monitor 0 }
{
    layout[FIRSTS + monitor] as usize
}

// How many monitors there are.
pub(crate) fn monitors_in(layout: &[u64; 1024]) -> usize
    ensures { result ≡ get_or layout.now 576 0 }
{
    layout[MONITORS] as usize
}

// How many letters there are.
pub(crate) fn letters_in(layout: &[u64; 1024]) -> usize
    ensures { result ≡ get_or layout.now 577 0 }
{
    layout[LETTERS] as usize
}

// ---- laying out

// Numbers into the block, one a word, from a place on.
fn place_numbers(numbers: &[u16], at: usize, layout: &mut [u64; 1024])
    requires { at + length numbers.now ≤ 1024 }
    ensures { layout.new ≡ sets layout.old at numbers.now }
{
    for (i, number) in numbers.iter().enumerate() {
        layout[at + i] = u64::from(*number);
    }
}

// Bytes, which are their own lowest 8 bits.
// No plainer as one generic function with `place_numbers`: a number of a type parameter is opaque to clauses, so that each caller
// would owe a law of its word.
fn place_bytes(bytes: &[u8], at: usize, layout: &mut [u64; 1024])
    requires { at + length bytes.now ≤ 1024 }
    ensures { (layout.new ≡ sets layout.old at bytes.now) × (map (λ x. x % 256) bytes.now ≡ bytes.now) }
{
    for (i, byte) in bytes.iter().enumerate() {
        layout[at + i] = u64::from(*byte);
    }
}

// The block of words, by the arrays and numbers of a watch.
pub fn layout_of<'a>(
    places: &'a [u16; 256],
    own: &'a [u16; 32],
    firsts: &'a [u16; 32],
    counted: &'a [u8; 256],
    monitors: usize,
    letters: usize,
    wires: usize,
    stores: usize,
    rows: usize,
) -> [u64; 1024]
    ensures { LaidBy places.now own.now firsts.now counted.now monitors letters wires stores rows result }
{
    let mut layout = [0u64; 1024];
    place_numbers(places, 0, &mut layout);
    place_numbers(own, OWN, &mut layout);
    place_numbers(firsts, FIRSTS, &mut layout);
    place_bytes(counted, COUNTED, &mut layout);
    layout[MONITORS] = monitors as u64;
    layout[LETTERS] = letters as u64;
    layout[WIRES] = wires as u64;
    layout[STORES] = stores as u64;
    layout[ROWS] = rows as u64;
    layout
}

// The block of a watch.
pub fn layout_of_watch(watch: &Watch) -> [u64; 1024]
    ensures { LaidOut watch.now result }
{
    layout_of(
        &watch.places,
        &watch.own,
        &watch.firsts,
        &watch.counted,
        watch.monitors,
        watch.letters,
        watch.wires,
        watch.stores,
        watch.rows,
    )
}
