// The walk over rows: being asked and being left send each other on until letters are reached (specs/Walk.antt). `steps` falls at
// each call. What entering a row came to is remembered for one tick. Leaving a row is always the last thing done, so the rows
// asked and left from one position are a line, and a letter that is marked stays marked unless the tick is bad.
ghost use Rattle.std.specs.Prelude.{◌≡◌};
ghost use Rattle.monitor.specs.Letters.{given};
ghost use Rattle.monitor.specs.Walk.{came, told, enter_letter, enter_second, enter_on, enter_m, ask_m, leave_m};

use super::letters::Tick;
use super::tables::ROWS;
use words::{RowKind, part0, part1, part2, part3};

// What entering a row came to: no letter is met; none, and the row can be left at once; one is met, and marked. It is
// a number and no enum, since it is a byte of the tick's memory, and the definitions under the demand `visits-few` (`came`, `enter_m`)
// hand on whatever byte is kept there, 0 where nothing is known.
// The same definitions have one list, the rows' codes and from 1,024 on which letters are marked.
pub(crate) const BLOCKED: u8 = 1;

const PASSED: u8 = 2;

const MET: u8 = 3;

// ---- entering

// A letter is met, and marked, or not.
fn enter_letter(letter: usize, tick: &Tick, memory: &mut [u8; 1280]) -> u8
    ensures { came result memory.new ≡ enter_letter (given tick.now.tables.now tick.now.values.now tick.now.words) letter memory.old }
{
    if 256 <= letter {
        return BLOCKED;
    }
    if !tick.letter_met(letter) {
        return BLOCKED;
    }
    memory[1024 + letter] = 1;
    MET
}

// A row is entered: whether the tick meets a letter that can come first in it.
#[cycle(enter_enter_on_enter_second)]
fn enter(row: usize, steps: usize, tick: &Tick, memory: &mut [u8; 1280]) -> u8
    ensures { came result memory.new ≡ enter_m steps (given tick.now.tables.now tick.now.values.now tick.now.words) row memory.old }
{
    if steps == 0 {
        return BLOCKED;
    }
    if 1024 <= row {
        return BLOCKED;
    }
    let known = memory[row];
    if known != 0 {
        return known;
    }
    let code = enter_on(tick.tables[ROWS][row], steps - 1, tick, memory);
    memory[row] = code;
    code
}

// By the row's word.
#[cycle(enter_enter_on_enter_second)]
fn enter_on(entry: u64, steps: usize, tick: &Tick, memory: &mut [u8; 1280]) -> u8
    ensures { came result memory.new ≡ enter_on (given tick.now.tables.now tick.now.values.now tick.now.words) (enter_m steps (given tick.now.tables.now tick.now.values.now tick.now.words)) entry memory.old }
{
    if part0(entry) == RowKind::Letter.number() {
        return enter_letter(part1(entry), tick, memory);
    }
    let first = enter(part1(entry), steps, tick, memory);
    enter_second(entry, first, steps, tick, memory)
}

// By what the left operand came to.
#[cycle(enter_enter_on_enter_second)]
fn enter_second(entry: u64, first: u8, steps: usize, tick: &Tick, memory: &mut [u8; 1280]) -> u8
    ensures { came result memory.new ≡ enter_second (enter_m steps (given tick.now.tables.now tick.now.values.now tick.now.words)) entry (came first memory.old) }
{
    match RowKind::of(entry) {
        Some(RowKind::Sequence) => {
            if first != PASSED {
                return first;
            }
            enter(part2(entry), steps, tick, memory)
        }
        Some(RowKind::Star) => {
            if first == MET {
                return MET;
            }
            PASSED
        }
        Some(RowKind::Alternative) => {
            if first == MET {
                return first;
            }
            let second = enter(part2(entry), steps, tick, memory);
            if second == MET {
                return MET;
            }
            if first == PASSED {
                return PASSED;
            }
            second
        }
        Some(RowKind::Letter) => first,
        Some(RowKind::Pipe) => first,
        None => first,
    }
}

// ---- asking and leaving

// A row is asked: whether there is a way on from it that the tick meets. It is entered, and left where it can be left at once.
#[cycle(ask_leave)]
pub(crate) fn ask(row: usize, steps: usize, tick: &Tick, memory: &mut [u8; 1280]) -> bool
    ensures { told result memory.new ≡ ask_m steps (given tick.now.tables.now tick.now.values.now tick.now.words) row memory.old }
{
    if steps == 0 {
        return false;
    }
    let code = enter(row, steps - 1, tick, memory);
    if code == MET {
        return true;
    }
    if code != PASSED {
        return false;
    }
    leave(row, steps - 1, tick, memory)
}

// A row is left: whether there is a way on behind it that the tick meets. A monitor's own row, which points at itself, is asked
// again; any other goes on by the row above. An `@` whose left operand is left starts its thread, and is left.
#[cycle(ask_leave)]
pub(crate) fn leave(row: usize, steps: usize, tick: &Tick, memory: &mut [u8; 1280]) -> bool
    ensures { told result memory.new ≡ leave_m steps (given tick.now.tables.now tick.now.values.now tick.now.words) row memory.old }
{
    if steps == 0 {
        return false;
    }
    if 1024 <= row {
        return false;
    }
    let left = steps - 1;
    let above = part3(tick.tables[ROWS][row]);
    if above == row {
        return ask(row, left, tick, memory);
    }
    if 1024 <= above {
        return false;
    }
    let entry = tick.tables[ROWS][above];
    match RowKind::of(entry) {
        Some(RowKind::Sequence) => {
            if part1(entry) == row {
                return ask(part2(entry), left, tick, memory);
            }
            leave(above, left, tick, memory)
        }
        Some(RowKind::Alternative) => leave(above, left, tick, memory),
        Some(RowKind::Star) => ask(above, left, tick, memory),
        Some(RowKind::Pipe) => {
            if part1(entry) != row {
                return true;
            }
            let thread = enter(part2(entry), left, tick, memory);
            if thread == BLOCKED {
                return false;
            }
            leave(above, left, tick, memory)
        }
        Some(RowKind::Letter) => false,
        None => false,
    }
}
