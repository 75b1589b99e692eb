// Rules 11 (docs/REFERENCE.md, S12) and 12 (S13) for one monitor, on the rows of the table, each of which is a word. Its letters are asked 64 at a time, and each time its rows are walked once.
#![tactic(auto)]

ghost use Rattle.std.specs.Prelude.{◌≡◌};
ghost use Rattle.shape.specs.Walk.{kinds, lefts, rights};
ghost use Rattle.shape.specs.Judge.{judge_of, shown_judged};

mod ends;
mod sets;
mod sides;
mod walk;

/// Which of the two rules a monitor breaks, and the letter at fault by its number in the monitor.
#[derive(Clone, Copy, Debug, PartialEq, Eq)]
pub enum Fault {
    // It ends a thread and can also be followed inside it.
    OpenEnd(usize),
    // It stands side by side with a letter that some word meets together with it.
    Fork(usize),
}

/// Judges the monitor whose own row is `row`. Its letters are those from `first` on and below `end`, of all that the table has.
pub fn judge(
    table: &[u64; 1024],
    look: &[u64; 256],
    want: &[u64; 256],
    row: usize,
    first: usize,
    end: usize,
) -> Result<(), Fault>
    ensures { shown_judged result ≡ judge_of (kinds table.now) (lefts table.now) (rights table.now) look.now want.now row first end }
{
    if let Some(open) = ends::lowest_open(table, row, first, end) {
        return Err(Fault::OpenEnd(open - first));
    }
    if let Some(fork) = sides::lowest_fork(table, look, want, row, first, end) {
        return Err(Fault::Fork(fork - first));
    }
    Ok(())
}
