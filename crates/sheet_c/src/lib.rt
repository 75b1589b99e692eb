// The entries for C (include/linewatch.h): the functions of the library `sheet`, each under its own name and with its own clause.

#![tactic(auto)]

ghost use Rattle.std.specs.Prelude.{◌≡◌};
ghost use Rattle.trace.specs.Record.{written};
ghost use Rattle.trace.specs.Whole.{lend, number_or_zero};
ghost use Rattle.meaning.specs.Calls.{look, take};
ghost use Rattle.meaning.specs.Sheet.{lent_sheet, lent_length};
ghost use Rattle.live.specs.Ranges.{open_at, range_opened, call_at, range_after, store_at, met_at, ticks_at};

// ---- Word by word, on a range of watches as words that the caller lends ----

#[unsafe(no_mangle)]
pub extern "C" fn linewatch_open_in(text: &[u8], watches: &mut [[[[u64; 1024]; 4]; 2]]) -> u64
    ensures { (result ≡ open_at text.now watches.old) × (watches.new ≡ range_opened text.now watches.old) }
{
    sheet::linewatch_open_in(text, watches)
}

#[unsafe(no_mangle)]
pub extern "C" fn linewatch_look_in(watches: &[[[[u64; 1024]; 4]; 2]], word: u64) -> u64
    ensures { result ≡ call_at watches.now (look word) }
{
    sheet::linewatch_look_in(watches, word)
}

#[unsafe(no_mangle)]
pub extern "C" fn linewatch_take_in(watches: &mut [[[[u64; 1024]; 4]; 2]], word: u64) -> u64
    ensures { (result ≡ call_at watches.old (take word)) × (watches.new ≡ range_after watches.old (take word)) }
{
    sheet::linewatch_take_in(watches, word)
}

#[unsafe(no_mangle)]
pub extern "C" fn linewatch_store_in(watches: &[[[[u64; 1024]; 4]; 2]], store: usize) -> u64
    ensures { result ≡ store_at watches.now store }
{
    sheet::linewatch_store_in(watches, store)
}

#[unsafe(no_mangle)]
pub extern "C" fn linewatch_met_in(
    watches: &[[[[u64; 1024]; 4]; 2]],
    monitor: usize,
    letter: usize,
) -> u64
    ensures { result ≡ met_at watches.now monitor letter }
{
    sheet::linewatch_met_in(watches, monitor, letter)
}

#[unsafe(no_mangle)]
pub extern "C" fn linewatch_ticks_in(watches: &[[[[u64; 1024]; 4]; 2]]) -> u64
    ensures { result ≡ ticks_at watches.now }
{
    sheet::linewatch_ticks_in(watches)
}

// ---- Whole traces ----

// Prints the sheet of a rule text and a trace into a lent range, and returns its length. A range that is shorter keeps its bytes, and 0 is
// returned.
#[unsafe(no_mangle)]
pub extern "C" fn linewatch_sheet(text: &[u8], records: &[u8], sheet: &mut [u8]) -> usize
    ensures { (result ≡ lent_length text.now records.now sheet.old) × (sheet.new ≡ (lent_sheet text.now records.now sheet.old).list) }
{
    sheet::linewatch_sheet(text, records, sheet)
}

// The record of a word.
#[unsafe(no_mangle)]
pub extern "C" fn linewatch_write_record(before: u64, word: u64, out: &mut [u8]) -> usize
    ensures { (result ≡ number_or_zero (lend (written before word) out.old).answer) × (out.new ≡ (lend (written before word) out.old).list) }
{
    sheet::linewatch_write_record(before, word, out)
}
