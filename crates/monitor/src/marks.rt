// The marks: which letters were met at the last tick, and which monitors are at their start (specs/Ticks.antt).
ghost use Rattle.std.specs.Prelude.{◌≡◌, true, ℕ, ◌+◌, ◌-◌, ◌<◌, ◌≤◌, get_or};
ghost use Rattle.monitor.specs.Ticks.{first_marked, marks_after};

// Whether none of eight letters is marked. They are looked at together, as one word when compiled.
pub(crate) fn quiet(marks: &[u8; 288], from: usize) -> bool
    requires { from + 8 ≤ 256 }
    ensures { result ≡ true → (i : ℕ) → i < 8 → get_or marks.now (from + i) 0 ≡ 0 }
{
    let mut any = 0;
    for step in 0..8 {
        any |= marks[from + step];
    }
    any == 0
}

// Past the letters from one on, eight by eight, as long as none of eight is marked.
// Speed: a `for` over all letters takes up to four times as long, since most are unmarked.
fn past_quiet(marks: &[u8; 288], from: usize, to: usize) -> usize
    requires { to ≤ 256 }
    ensures { first_marked marks.now (to - from) from ≡ first_marked marks.now (to - result) result }
{
    let mut start = from;
    while start < to && start + 8 <= to && quiet(marks, start) {
        start += 8;
    }
    start
}

// The first marked letter from one up to another, or that.
// No plainer as an Option: each caller goes on from it as long as it is before the end that it gave.
pub(crate) fn first_marked(marks: &[u8; 288], from: usize, to: usize) -> usize
    requires { to ≤ 256 }
    ensures { result ≡ first_marked marks.now (to - from) from }
{
    let start = past_quiet(marks, from, to);
    for letter in start..to {
        if marks[letter] != 0 {
            return letter;
        }
    }
    start.max(to)
}

// The new marks: the letters marked in the memory, and no monitor at its start.
pub(crate) fn put_marks(memory: &[u8; 1280], marks: &mut [u8; 288])
    ensures { marks.new ≡ marks_after 256 memory.now }
{
    *marks = [0; 288];
    marks[..256].copy_from_slice(&memory[1024..]);
}
