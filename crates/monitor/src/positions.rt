// Every active position goes on, or a monitor no longer fits (specs/Ticks.antt).
ghost use Rattle.std.specs.Prelude.{◌≡◌, cond, suc, ◌+◌, ◌-◌, ◌<◌, ◌≤◌, min, ltb, IfSome};
ghost use Rattle.monitor.specs.Letters.{given};
ghost use Rattle.monitor.specs.Shown.{shown_place};
ghost use Rattle.monitor.specs.Walk.{told};
ghost use Rattle.monitor.specs.Ticks.{places_in, own_in, layout_with, letter_goes, letters_go, start_goes, letters_end, letter_at, monitor_goes, reached, monitors_go};

use super::layout::{first_of, letters_in, monitors_in, own_of, row_of};
use super::letters::Tick;
use super::marks::first_marked;
use super::walk::{ask, leave};

// 4 calls for each row are enough.
const STEPS: usize = 4096;

// A letter is left, if it is marked.
fn letter_goes(
    letter: usize,
    marks: &[u8; 288],
    layout: &[u64; 1024],
    tick: &Tick,
    memory: &mut [u8; 1280],
) -> bool
    requires { letter < 256 }
    ensures { told result memory.new ≡ letter_goes (given tick.now.tables.now tick.now.values.now tick.now.words) (places_in layout.now) marks.now letter memory.old }
{
    if marks[letter] == 0 {
        return true;
    }
    leave(row_of(layout, letter), STEPS, tick, memory)
}

// The letters from one up to another.
fn letters_go(
    from: usize,
    to: usize,
    marks: &[u8; 288],
    layout: &[u64; 1024],
    tick: &Tick,
    memory: &mut [u8; 1280],
) -> bool
    requires { to ≤ 256 }
    ensures { told result memory.new ≡ letters_go (given tick.now.tables.now tick.now.values.now tick.now.words) (places_in layout.now) marks.now (to - from) from memory.old }
{
    // Speed: from mark to mark, as in `write_marked`.
    let mut letter = first_marked(marks, from, to);
    while letter < to {
        if !letter_goes(letter, marks, layout, tick, memory) {
            return false;
        }
        letter = first_marked(marks, letter + 1, to);
    }
    true
}

// A monitor is asked, if it is at its start.
fn start_goes(
    monitor: usize,
    marks: &[u8; 288],
    layout: &[u64; 1024],
    tick: &Tick,
    memory: &mut [u8; 1280],
) -> bool
    requires { monitor < 32 }
    ensures { told result memory.new ≡ start_goes (given tick.now.tables.now tick.now.values.now tick.now.words) (own_in layout.now) marks.now monitor memory.old }
{
    if marks[256 + monitor] == 0 {
        return true;
    }
    ask(own_of(layout, monitor), STEPS, tick, memory)
}

// The next monitor; that of the last of 32 is itself, and is not asked for.
fn next_of(monitor: usize) -> usize
    ensures { result ≡ min monitor 30 + 1 }
{
    monitor.min(30) + 1
}

// Where the letters of a monitor end, of 32 monitors and 256 letters at most, by the next one's first letter.
fn end_by(next: usize, monitors: usize, letters: usize, monitor: usize) -> usize
    ensures { (result ≡ cond (ltb (suc monitor) (min monitors 32)) (min next 256) (min letters 256)) × (result ≤ 256) }
{
    if 31 <= monitor {
        return letters.min(256);
    }
    if monitor + 1 < monitors {
        return next.min(256);
    }
    letters.min(256)
}

// By the first letters of all.
pub fn letters_end(firsts: &[u16; 32], monitors: usize, letters: usize, monitor: usize) -> usize
    ensures { (result ≡ letters_end firsts.now (min monitors 32) (min letters 256) monitor) × (result ≤ 256) }
{
    end_by(
        usize::from(firsts[next_of(monitor)]),
        monitors,
        letters,
        monitor,
    )
}

// Where a letter of a monitor stands among all letters, if there is one.
pub fn letter_at(layout: &[u64; 1024], monitor: usize, letter: usize) -> Option<usize>
    ensures place { (shown_place result ≡ letter_at layout.now monitor letter) × (shown_place result ≤ 256) }
    ensures below { IfSome result (λ place. place < 256) }
{
    let monitors = monitors_in(layout);
    if monitors.min(32) <= monitor {
        return None;
    }
    let from = first_of(layout, monitor);
    let next = first_of(layout, next_of(monitor));
    let to = end_by(next, monitors, letters_in(layout), monitor);
    if to <= from {
        return None;
    }
    if to - from <= letter {
        return None;
    }
    Some(from + letter)
}

// Every active position of a monitor.
fn monitor_goes(
    monitor: usize,
    monitors: usize,
    letters: usize,
    marks: &[u8; 288],
    layout: &[u64; 1024],
    tick: &Tick,
    memory: &mut [u8; 1280],
) -> bool
    requires { (monitor < monitors) × (monitors ≤ 32) × (letters ≤ 256) }
    ensures { told result memory.new ≡ monitor_goes (given tick.now.tables.now tick.now.values.now tick.now.words) (layout_with layout.now monitors letters) marks.now monitor memory.old }
{
    if !start_goes(monitor, marks, layout, tick, memory) {
        return false;
    }
    let from = first_of(layout, monitor);
    let next = first_of(layout, next_of(monitor));
    let to = end_by(next, monitors, letters, monitor);
    letters_go(from, to, marks, layout, tick, memory)
}

// Every active position of every monitor: the first monitor that does not go on, or how many there are.
// That count and no Option: `reached` and `answer_by`, under the demands `peek-in-entry` and `step-in-entry`,
// take it so.
pub(crate) fn monitors_go(
    monitors: usize,
    letters: usize,
    marks: &[u8; 288],
    layout: &[u64; 1024],
    tick: &Tick,
    memory: &mut [u8; 1280],
) -> usize
    requires { (monitors ≤ 32) × (letters ≤ 256) }
    ensures { reached result memory.new ≡ monitors_go (given tick.now.tables.now tick.now.values.now tick.now.words) (layout_with layout.now monitors letters) marks.now monitors 0 memory.old }
{
    for monitor in 0..monitors {
        if !monitor_goes(monitor, monitors, letters, marks, layout, tick, memory) {
            return monitor;
        }
    }
    monitors
}
