// A watch at work on records: for each record the tick and its line (specs/Lines.antt).
ghost use Rattle.std.specs.Prelude.{◌≡◌, ◌≤◌};
ghost use Rattle.trace.specs.Record.{read_record};
ghost use Rattle.sheet.specs.Lines.{run, run_over};
ghost use Rattle.sheet.specs.Items.{IsNext};
ghost use Rattle.sheet.specs.Moved.{moved, moving_of};
ghost use Rattle.sheet.specs.Runs.{RanOver};

use super::lines::TickLine;
use super::page::Page;
use monitor::{count_met, is_bad, layout_of_watch, refused_by, step_in, tables_of};
use refusals::Refusal;
use rules::Watch;
use trace::{Record, TraceError, read_record};

// The record at the front of some bytes: none where they end or cut it short, for more may come; else why it is refused.
fn next_record(rest: &[u8], before: u64) -> Result<Option<Record>, Refusal>
    ensures { IsNext result (read_record rest.now before) }
{
    match read_record(rest, before) {
        Ok(next) => Ok(next),
        Err(TraceError::Torn(_)) => Ok(None),
        Err(TraceError::Idle(_)) => Err(Refusal::IdleByte),
        Err(TraceError::Short) => Err(Refusal::ShortBin),
    }
}

// What a run over some bytes comes to: the watch and the word before the next record; how many bytes were used; the place
// behind what was printed; whether a line was printed that ends the sheet.
// A flag beside values: `run` promises the others where the sheet has ended too.
#[derive(Clone, Copy)]
pub struct Ran {
    pub watch: Watch,
    pub before: u64,
    pub used: usize,
    pub at: usize,
    pub ended: bool,
}

// What good ticks move on, kept apart from the watch, which is large.
#[derive(Drop)]
struct Moving {
    marks: [u8; 288],
    values: [u64; 16],
    past: u64,
    totals: [u32; 256],
    windows: [u16; 1056],
    ticks: u64,
}

impl Moving {
    fn of(watch: &Watch) -> Moving
        ensures { result ≡ moving_of watch.now }
    {
        Moving {
            marks: watch.marks,
            values: watch.values,
            past: watch.before,
            totals: watch.totals,
            windows: watch.windows,
            ticks: watch.ticks,
        }
    }

    // The watch, moved on.
    fn watch(self, watch: &Watch, stopped: bool) -> Watch
        ensures { result ≡ moved watch.now self stopped }
    {
        let Moving {
            marks,
            values,
            past,
            totals,
            windows,
            ticks,
        } = self;
        Watch {
            marks,
            values,
            before: past,
            totals,
            windows,
            ticks,
            stopped,
            ..*watch
        }
    }
}

// Runs the watch over the records, and prints a line for each, and the foot behind a bad one. `before` is the word before the
// records; what the watch itself has as the word before is what it took last.
pub(crate) fn run_from(watch: &Watch, before: u64, records: &[u8], page: &mut Page) -> Ran
    requires { page.old.at ≤ 128 }
    ensures { RanOver (run_over (run watch.now before) records.now) records.now page.old page.new result }
{
    let tables = tables_of(watch);
    let layout = layout_of_watch(watch);
    let mut moving = Moving::of(watch);
    let mut line = TickLine::new(moving.ticks);
    let mut last = before;
    let mut used: usize = 0;
    loop {
        let record = match next_record(&records[used..], last) {
            Ok(Some(record)) => record,
            Ok(None) => return Ran {
                watch: moving.watch(watch, watch.stopped),
                before: last,
                used,
                at: page.at,
                ended: false,
            },
            Err(refusal) => {
                page.refusal(refusal.number(), moving.ticks);
                return Ran {
                    watch: moving.watch(watch, watch.stopped),
                    before: last,
                    used,
                    at: page.at,
                    ended: true,
                };
            }
        };
        let word = record.word;
        if let Some(refusal) = refused_by(watch.stopped, moving.ticks, watch.wires, word) {
            page.refusal(refusal.number(), moving.ticks);
            return Ran {
                watch: moving.watch(watch, watch.stopped),
                before: last,
                used,
                at: page.at,
                ended: true,
            };
        }
        let answer = step_in(
            &tables,
            &layout,
            &mut moving.marks,
            &mut moving.values,
            &mut moving.windows,
            moving.past,
            word,
        );
        if is_bad(answer) {
            page.bad(&mut line, moving.ticks, word, answer as u64);
            let halted = moving.watch(watch, true);
            page.foot(&halted);
            return Ran {
                watch: halted,
                before: last,
                used,
                at: page.at,
                ended: true,
            };
        }
        page.good(&mut line, moving.ticks, word);
        line.count_on(moving.ticks);
        count_met(watch.letters, &moving.marks, &mut moving.totals);
        moving.ticks += 1;
        moving.past = word;
        last = word;
        used += record.length;
    }
}
