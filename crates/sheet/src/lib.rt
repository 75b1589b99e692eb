// The printed sheet: from a rule text and the records of a trace to the sheet's bytes in a lent range, for C too; and the same
// in pieces, for traces longer than any buffer. What is printed is said by `meaning`'s specs/Sheet.antt.
#![tactic(auto)]

mod entries;
mod foot;
mod lines;
mod page;
mod ticking;

ghost use Rattle.std.specs.Prelude.{◌≡◌, ◌++◌, ◌+◌, ◌*◌, ◌<◌, ◌≤◌, min, leb, length, drop, cond, []};
ghost use Rattle.std.proofs.lemmas.List.Edits.{sets};
ghost use Rattle.trace.specs.Record.{written};
ghost use Rattle.trace.specs.Whole.{lend, number_or_zero};
ghost use Rattle.meaning.specs.Sheet.{first_line, lent_sheet, lent_length};
ghost use Rattle.sheet.specs.Lines.{run, run_over, foot_of, closing, closed, is_refused};
ghost use Rattle.sheet.specs.Pages.{Printed};
ghost use Rattle.meaning.specs.Opening.{counts_of, open_text};
ghost use Rattle.rules.specs.Watches.{watch_of, shown_outcome};

pub use entries::{
    linewatch_look_in, linewatch_met_in, linewatch_open_in, linewatch_store_in, linewatch_take_in,
    linewatch_ticks_in,
};
use page::Page;
use refusals::Refusal;
use rules::{Counts, Refused, Start, Watch, open};
pub use ticking::Ran;
use ticking::run_from;

// A text opened: the watch, the place behind the first line, and whether that line is the whole sheet.
// A flag beside values: `begin` promises the watch and the place of a refused text too.
#[derive(Clone, Copy)]
pub struct Begun {
    pub watch: Watch,
    pub at: usize,
    pub ended: bool,
}

// The line of an opening.
fn put_first(outcome: Result<Counts, Refused>, page: &mut Page)
    requires { page.old.at < 4294967296 }
    ensures printed { Printed page.old page.new (first_line (shown_outcome outcome)) }
    ensures short { page.new.at ≤ page.old.at + 128 }
{
    match outcome {
        Ok(counts) => page.counts(counts.rows as u64, counts.letters as u64),
        Err(Refused::AtByte(why, place)) => page.refusal(why.number(), place as u64),
        Err(Refused::AtLetter(why, monitor, letter)) => page.refusal_at(
            why.number(),
            monitor as u64,
            letter as u64,
        ),
    }
}

// Whether a text was turned away.
fn refused(outcome: Result<Counts, Refused>) -> bool
    ensures { result ≡ is_refused (shown_outcome outcome) }
{
    outcome.is_err()
}

// Opens a rule text and prints the sheet's first line, as far as the range reaches.
pub fn begin(text: &[u8], out: &mut [u8]) -> Begun
    ensures { (out.new ≡ sets out.old 0 (first_line (counts_of (open_text text.now)))) × (result.at ≡ length (first_line (counts_of (open_text text.now))))
        × (result.ended ≡ is_refused (open_text text.now)) × (result.watch ≡ watch_of (open_text text.now)) × (result.at ≤ 128) }
{
    let start = open(text);
    let outcome = start.outcome;
    let watch = start.watch;
    let mut page = Page { out, at: 0 };
    put_first(outcome, &mut page);
    let at = page.at;
    let ended = refused(outcome);
    Begun { watch, at, ended }
}

// Runs a watch over records, and prints a line for each, as far as the range reaches. `before` is the word before them.
pub fn run(watch: Watch, before: u64, records: &[u8], out: &mut [u8]) -> Ran
    ensures { (run result.watch result.before ≡ (run_over (run watch before) records.now).after)
        × (drop result.used records.now ≡ (run_over (run watch before) records.now).left)
        × (result.ended ≡ (run_over (run watch before) records.now).ended)
        × (out.new ≡ sets out.old 0 (run_over (run watch before) records.now).printed)
        × (result.at ≡ length (run_over (run watch before) records.now).printed)
        × (result.used ≤ length records.now) }
{
    let mut page = Page { out, at: 0 };
    run_from(&watch, before, records, &mut page)
}

// The last lines of a watch, where no more bytes come and so many are left.
fn put_last(watch: &Watch, left: usize, page: &mut Page)
    requires { page.old.at < 4000000000 }
    ensures { Printed page.old page.new (closing watch.now left) }
{
    if left == 0 {
        page.clean(watch.ticks);
        page.foot(watch);
        return;
    }
    page.refusal(Refusal::Torn.number(), watch.ticks);
}

// Prints the last lines of a watch, where no more bytes come and so many are left.
pub fn finish(watch: Watch, left: usize, out: &mut [u8]) -> usize
    ensures { (out.new ≡ sets out.old 0 (closing watch left)) × (result ≡ length (closing watch left)) }
{
    let mut page = Page { out, at: 0 };
    put_last(&watch, left, &mut page);
    page.at
}

// Prints the totals of a watch, as they stand at the foot of its sheet.
pub fn totals(watch: Watch, out: &mut [u8]) -> usize
    ensures { (out.new ≡ sets out.old 0 (foot_of watch)) × (result ≡ length (foot_of watch)) }
{
    let mut page = Page { out, at: 0 };
    page.foot(&watch);
    page.at
}

// Prints what stands behind the first line.
fn print_rest(start: &Start, records: &[u8], page: &mut Page)
    requires { page.old.at ≤ 128 }
    ensures { Printed page.old page.new (cond (is_refused (shown_outcome start.now.outcome)) [] (closed (run_over (run start.now.watch 0) records.now))) }
{
    if refused(start.outcome) {
        return;
    }
    let ran = run_from(&start.watch, 0, records, page);
    if ran.ended {
        return;
    }
    put_last(&ran.watch, records.len() - ran.used, page);
}

// Prints the sheet of an opened text and records.
fn print_sheet(start: &Start, records: &[u8], page: &mut Page)
    requires { page.old.at ≡ 0 }
    ensures printed { Printed page.old page.new (first_line (shown_outcome start.now.outcome)
        ++ cond (is_refused (shown_outcome start.now.outcome)) [] (closed (run_over (run start.now.watch 0) records.now))) }
    ensures short { length (first_line (shown_outcome start.now.outcome)) ≤ 128 }
{
    put_first(start.outcome, page);
    print_rest(start, records, page);
}

// How long that sheet is: it is printed where nothing fits.
fn sheet_length(start: &Start, records: &[u8]) -> usize
    ensures { result ≡ length (first_line (shown_outcome start.now.outcome)
        ++ cond (is_refused (shown_outcome start.now.outcome)) [] (closed (run_over (run start.now.watch 0) records.now))) }
{
    let mut none = [0u8; 1];
    let mut page = Page {
        out: &mut none[0..0],
        at: 0,
    };
    print_sheet(start, records, &mut page);
    page.at
}

// Whether a range surely has room for the sheet of so many letters, at most 256, and so many bytes of records, however they are:
// then one pass does.
fn surely_fits(letters: usize, records: usize, room: usize) -> bool
    ensures { result ≡ leb (256 + 24 * min letters 256 + 64 * min records 1000000) room }
{
    256 + 24 * letters.min(256) + 64 * records.min(1000000) <= room
}

// Prints the sheet of a rule text and a trace into a lent range, and returns its length. A range that is shorter keeps its bytes, and 0 is
// returned.
#[unsafe(no_mangle)]
pub extern "C" fn linewatch_sheet(text: &[u8], records: &[u8], sheet: &mut [u8]) -> usize
    ensures { (result ≡ lent_length text.now records.now sheet.old) × (sheet.new ≡ (lent_sheet text.now records.now sheet.old).list) }
{
    let start = open(text);
    if !surely_fits(start.watch.letters, records.len(), sheet.len()) {
        let long = sheet_length(&start, records);
        if sheet.len() < long {
            return 0;
        }
    }
    let mut page = Page { out: sheet, at: 0 };
    print_sheet(&start, records, &mut page);
    page.at
}

// The record of a word, for C: `trace`'s.
#[unsafe(no_mangle)]
pub extern "C" fn linewatch_write_record(before: u64, word: u64, out: &mut [u8]) -> usize
    ensures { (result ≡ number_or_zero (lend (written before word) out.old).answer) × (out.new ≡ (lend (written before word) out.old).list) }
{
    trace::or_zero(trace::write_record(before, word, out))
}
