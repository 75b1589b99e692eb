// Opening the monitors: rules 8 to 12, and the table with the rows and letters of all monitors one behind the other
// (specs/Monitors.antt).
ghost use Rattle.std.specs.Prelude.{◌≡◌, List, ℕ, ◌≤◌, length};
ghost use Rattle.meaning.specs.Lists.{total};
ghost use Rattle.meaning.specs.Expression.{Exp, size};
ghost use Rattle.rules.specs.Laying.{ExpAt, SomeExp};
ghost use Rattle.rules.specs.Monitors.{MonitorsAre, SomeMonitors, FewLetters, FirstLong, ArraysIn, MonitorAt, SomeMonitor, letter_fault, Ruled, Opens, lists_in, OpenedBy, by_shapes, by_rules};

use super::lay::{Laid, Tables};
use super::{Counts, Refused};
use refusals::Refusal;
use shape::{Fault, judge};
use words::{part0, part1, part2, part3};

// ---- rule 8

// The first monitor whose letters pass the limit, with those of the monitors before it.
fn first_long(words: &[u64], monitors: &[u16]) -> Option<usize>
    requires { SomeMonitors words.now monitors.now (length monitors.now) }
    ensures { (c : ℕ) → (ms : List Exp) → MonitorsAre words.now c monitors.now (length monitors.now) ms → FirstLong ms result }
{
    let mut sum: usize = 0;
    for (i, cell) in monitors.iter().enumerate() {
        sum += part0(words[*cell as usize + 2]);
        if 256 < sum {
            return Some(i);
        }
    }
    None
}

// ---- rules 9 to 12 for one monitor

// The rule that a monitor breaks, and its letter that is at fault, by its number in the monitor.
#[derive(Clone, Copy, Debug, PartialEq, Eq)]
struct LetterFault {
    rule: Refusal,
    letter: usize,
}

impl From<Fault> for LetterFault {
    ghost from_gives = { λ fault e. e ≡ letter_fault fault };

    fn from(fault: Fault) -> LetterFault {
        match fault {
            Fault::OpenEnd(letter) => LetterFault {
                rule: Refusal::OpenEnd,
                letter,
            },
            Fault::Fork(letter) => LetterFault {
                rule: Refusal::Fork,
                letter,
            },
        }
    }
}

// Lays the monitor at a node from a row and a letter on, and asks rules 11 and 12 of its rows.
fn lay_one(
    words: &[u64],
    node: usize,
    row: usize,
    first: usize,
    tables: &mut Tables,
) -> Result<Laid, LetterFault>
    requires { SomeExp words.now node row first }
    ensures { (c : ℕ) → (e : Exp) → ExpAt words.now c node row first e → Ruled row first e tables.old tables.new result }
{
    let laid = tables.lay(words, node, row, row, first);
    judge(
        &tables.table,
        &tables.look,
        &tables.want,
        row,
        first,
        laid.letter,
    )?;
    Ok(laid)
}

// Opens the monitor whose production has a cell: rules 9 and 10 by what is known of it, then its rows.
fn open_one(
    words: &[u64],
    cell: usize,
    row: usize,
    first: usize,
    tables: &mut Tables,
) -> Result<Laid, LetterFault>
    requires { SomeMonitor words.now cell row first × ArraysIn tables.old }
    ensures { ((c : ℕ) → (m : Exp) → MonitorAt words.now c cell row first m → Opens row first m tables.old tables.new result) × ArraysIn tables.new }
{
    let known = words[cell + 2];
    let impossible = part2(known);
    if impossible != 0 {
        return Err(LetterFault {
            rule: Refusal::Impossible,
            letter: impossible - 1,
        });
    }
    if part1(known) != 0 {
        return Err(LetterFault {
            rule: Refusal::Hollow,
            letter: 0,
        });
    }
    let hollow = part3(known);
    if hollow != 0 {
        return Err(LetterFault {
            rule: Refusal::Hollow,
            letter: hollow - 1,
        });
    }
    lay_one(words, part0(words[cell + 1]), row, first, tables)
}

// ---- all monitors

// Each monitor's own row, and the index of its first letter.
#[derive(Drop)]
pub(crate) struct Starts {
    pub(crate) own: [u16; 32],
    pub(crate) firsts: [u16; 32],
}

// Rules 9 to 12 monitor by monitor, each laid behind the one before it.
fn lay_all(
    words: &[u64],
    monitors: &[u16],
    tables: &mut Tables,
    starts: &mut Starts,
) -> Result<Counts, Refused>
    requires { FewLetters words.now monitors.now (length monitors.now) × ArraysIn tables.old }
    ensures { ((c : ℕ) → (ms : List Exp) → MonitorsAre words.now c monitors.now (length monitors.now) ms → total size ms ≤ 256
        → OpenedBy (by_shapes ms) ms (lists_in tables.old starts.old) (lists_in tables.new starts.new) result)
        × ArraysIn tables.new }
{
    let mut row: usize = 0;
    let mut first: usize = 0;
    for (i, cell) in monitors.iter().enumerate() {
        starts.own[i] = row as u16;
        starts.firsts[i] = first as u16;
        let laid = open_one(words, *cell as usize, row, first, tables).map_err(
            |fault| Refused::AtLetter(fault.rule, i, fault.letter),
        )?;
        row = laid.row;
        first = laid.letter;
    }
    Ok(Counts {
        rows: row,
        letters: first,
    })
}

// Opens the monitors whose productions have these cells.
pub(crate) fn open_monitors(
    words: &[u64],
    monitors: &[u16],
    tables: &mut Tables,
    starts: &mut Starts,
) -> Result<Counts, Refused>
    requires { SomeMonitors words.now monitors.now (length monitors.now) × ArraysIn tables.old }
    ensures { ((c : ℕ) → (ms : List Exp) → MonitorsAre words.now c monitors.now (length monitors.now) ms
        → OpenedBy (by_rules ms) ms (lists_in tables.old starts.old) (lists_in tables.new starts.new) result)
        × ArraysIn tables.new }
{
    match first_long(words, monitors) {
        Some(long) => Err(Refused::AtLetter(Refusal::LongRun, long, 0)),
        None => lay_all(words, monitors, tables, starts),
    }
}
