// The limits at a tick (docs/REFERENCE.md, F29 to F31; specs/Limited.antt): which of them count it, what it is answered with, and
// the windows after it. A text without limits is told by one number of the windows, and costs no more.
ghost use Rattle.std.specs.Prelude.{◌≡◌};
ghost use Rattle.windows.specs.Windows.{counted_in};
ghost use Rattle.monitor.specs.Limited.{tick_mask, answer_by, windows_after};

use windows::{first_beyond, met_mask_in, pass};

// Where the windows have the number of limits.
const LIMITS: usize = 1049;

// The number of limit 0 in an answer.
const FIRST: usize = 32;

// The limits that count a tick, by the letters marked in its memory.
pub(crate) fn tick_mask(
    letters: usize,
    memory: &[u8; 1280],
    layout: &[u64; 1024],
    windows: &[u16; 1056],
) -> u8
    ensures { result ≡ tick_mask memory.now (counted_in layout.now) windows.now letters }
{
    if windows[LIMITS] == 0 {
        return 0;
    }
    met_mask_in(letters, memory, layout)
}

// What a tick is answered with: the monitor reached, of so many, if it does not go on; else 32 and the lowest limit that the tick is
// beyond, which is 40 (`FINE`) if it is beyond none.
pub(crate) fn answer_by(monitor: usize, monitors: usize, windows: &[u16; 1056], mask: u8) -> usize
    ensures { result ≡ answer_by monitor monitors windows.now mask }
{
    let limit = FIRST + first_beyond(windows, mask).unwrap_or(8);
    if monitor < monitors.min(32) {
        return monitor;
    }
    limit
}

// A good tick has passed.
pub(crate) fn pass_tick(windows: &mut [u16; 1056], mask: u8)
    ensures { windows.new ≡ windows_after windows.old mask }
{
    if windows[LIMITS] == 0 {
        return;
    }
    pass(windows, mask);
}
