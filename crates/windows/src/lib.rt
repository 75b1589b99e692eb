// The windows of a rule text's limits, 8 at most, in one array: on how many of its last ticks a letter of each limit was met
// (specs/Windows.antt). A tick is one number, the mask, whose bit k says whether a letter of limit k was met there.
#![tactic(auto)]

ghost use Rattle.std.specs.Prelude.{◌≡◌, ◌<◌, ℕ, List, min, if◌then◌else◌, nat_eq, slice_index, bit_or, IfSome};
ghost use Rattle.windows.specs.Windows.{bit_of, counted_in, met_mask, limits_in, next_count, first_beyond, shown_limit, counted, passed, opened_windows};

use words::{part1, part2};

// numbers in one array and no struct: `live` keeps it in the words that a C caller lends, and `opened_windows` and `passed` name its places
// Where things stand in the array. The masks of the last 1,024 ticks come first, that of tick t at t % 1024. Then, for each limit:
// its running count, how many are allowed, and 1,024 less its window, so that the tick that leaves it is found by adding alone.
const COUNTS: usize = 1024;

const MOSTS: usize = 1032;

const BACKS: usize = 1040;

// The place of the next tick, and how many limits there are. Behind these nothing is used.
const PLACE: usize = 1048;

const LIMITS: usize = 1049;

// ---- the mask of a tick

// The limits that count a letter, if it is marked. It is compiled without a branch, so many letters are looked at together.
fn if_marked(mark: u8, limits: u8) -> u8
    ensures { result ≡ (if nat_eq mark 0 then 0 else limits) }
{
    if mark != 0 { limits } else { 0 }
}

// Where the block of words that a tick is lent has, for each letter, the limits that count it, as the lowest 8 bits of a word.
pub const COUNTED: usize = 320;

// What has, for each letter, the limits that count it.
trait Counted {
    ghost counted: { Self → List ℕ };

    // A mask with those of one letter too, if it is marked.
    fn with_letter(&self, mask: u8, mark: u8, letter: usize) -> u8
        requires { letter < 256 }
        ensures { result ≡ bit_or mask (if nat_eq mark 0 then 0 else slice_index (counted self.now) letter) };
}

// A byte for each letter.
impl Counted for [u8; 256] {
    ghost counted = { λ bytes. bytes };

    fn with_letter(&self, mask: u8, mark: u8, letter: usize) -> u8 {
        mask | if_marked(mark, self[letter])
    }
}

// The block of words that a tick is lent.
impl Counted for [u64; 1024] {
    ghost counted = { counted_in };

    fn with_letter(&self, mask: u8, mark: u8, letter: usize) -> u8 {
        mask | if_marked(mark, (self[COUNTED + letter] % 256) as u8)
    }
}

// The limits that count one of the letters marked in the memory, of 256 at most.
fn limits_met<C: Counted>(letters: usize, memory: &[u8; 1280], counted: &C) -> u8
    ensures { result ≡ met_mask memory.now (C.counted counted.now) (min letters 256) }
{
    let mut mask: u8 = 0;
    for letter in 0..letters.min(256) {
        mask = counted.with_letter(mask, memory[1024 + letter], letter);
    }
    mask
}

// two names in place of the generic one: the theorems `met-mask-entry` and `met-mask-in-entry` are each told of one
// The same, where there is a byte for each letter.
pub fn met_mask(letters: usize, memory: &[u8; 1280], counted: &[u8; 256]) -> u8
    ensures { result ≡ met_mask memory.now counted.now (min letters 256) }
{
    limits_met(letters, memory, counted)
}

// The same, where the limits that count each letter stand in the block of words.
pub fn met_mask_in(letters: usize, memory: &[u8; 1280], layout: &[u64; 1024]) -> u8
    ensures { result ≡ met_mask memory.now (counted_in layout.now) (min letters 256) }
{
    limits_met(letters, memory, layout)
}

// ---- the counts

// Bit k of a number.
fn bit(k: usize, number: usize) -> usize
    requires { k < 8 }
    ensures { result ≡ bit_of k number }
{
    (number >> k) % 2
}

// The count of a limit with a tick of this mask: one more if it counts, and one less if the tick that leaves the window did.
fn next_count(windows: &[u16; 1056], mask: u8, limit: usize) -> usize
    requires { limit < 8 }
    ensures { result ≡ next_count windows.now mask limit }
{
    let leaves = (usize::from(windows[PLACE]) % 1024 + usize::from(windows[BACKS + limit])) % 1024;
    let count = usize::from(windows[COUNTS + limit]) + bit(limit, usize::from(mask));
    count.saturating_sub(bit(limit, usize::from(windows[leaves])))
}

// How many limits there are.
fn limits_in(windows: &[u16; 1056]) -> usize
    ensures { result ≡ limits_in windows.now }
{
    usize::from(windows[LIMITS]).min(8)
}

// The lowest limit that a tick of this mask is beyond, if there is one.
pub fn first_beyond(windows: &[u16; 1056], mask: u8) -> Option<usize>
    ensures limit { shown_limit result ≡ first_beyond windows.now mask }
    ensures below { IfSome result (λ limit. limit < 8) }
{
    for limit in 0..limits_in(windows) {
        if usize::from(windows[MOSTS + limit]) < next_count(windows, mask, limit) {
            return Some(limit);
        }
    }
    None
}

// Each limit gets its next count.
fn count_tick(windows: &mut [u16; 1056], mask: u8)
    ensures { windows.new ≡ counted windows.old mask (limits_in windows.old) }
{
    for limit in 0..limits_in(windows) {
        windows[COUNTS + limit] = (next_count(windows, mask, limit) % 65536) as u16;
    }
}

// A tick of this mask has passed.
pub fn pass(windows: &mut [u16; 1056], mask: u8)
    ensures { windows.new ≡ passed windows.old mask }
{
    let place = usize::from(windows[PLACE]) % 1024;
    count_tick(windows, mask);
    windows[place] = u16::from(mask);
    windows[PLACE] = ((place + 1) % 1024) as u16;
}

// ---- at opening

// The windows before the first tick: of so many limits, each by a word of its production, most and window.
pub fn windows_of(limits: &[u64; 8], count: usize) -> [u16; 1056]
    ensures { result ≡ opened_windows limits.now count }
{
    let end = count.min(8);
    let mut windows = [0u16; 1056];
    for limit in 0..end {
        let word = limits[limit];
        windows[MOSTS + limit] = part1(word) as u16;
        windows[BACKS + limit] = (1024 - part2(word).min(1024)) as u16;
    }
    windows[LIMITS] = end as u16;
    windows
}
