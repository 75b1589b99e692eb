// The entries for C that go word by word, on a range of watches as words that the caller lends (live's specs/Ranges.antt): the first of
// them is used, and where there is none the range is too short.
ghost use Rattle.std.specs.Prelude.{◌≡◌};
ghost use Rattle.meaning.specs.Calls.{look, take};
ghost use Rattle.live.specs.Ranges.{open_at, range_opened, call_at, range_after, store_at, met_at, ticks_at};

use live::{letter_met, look_words, open_words, store_value, take_words, tick_count};

// A refusal as a number: C is answered with one. It is number 18 (live's specs/Codes.antt).
const SHORT: u64 = 1179650;

#[unsafe(no_mangle)]
pub extern "C" fn linewatch_open_in(text: &[u8], watches: &mut [[[[u64; 1024]; 4]; 2]]) -> u64
    ensures { (result ≡ open_at text.now watches.old) × (watches.new ≡ range_opened text.now watches.old) }
{
    let Some(watch) = watches.first_mut() else {
        return SHORT;
    };
    open_words(text, watch)
}

#[unsafe(no_mangle)]
pub extern "C" fn linewatch_look_in(watches: &[[[[u64; 1024]; 4]; 2]], word: u64) -> u64
    ensures { result ≡ call_at watches.now (look word) }
{
    let Some(watch) = watches.first() else {
        return SHORT;
    };
    look_words(watch, word)
}

#[unsafe(no_mangle)]
pub extern "C" fn linewatch_take_in(watches: &mut [[[[u64; 1024]; 4]; 2]], word: u64) -> u64
    ensures { (result ≡ call_at watches.old (take word)) × (watches.new ≡ range_after watches.old (take word)) }
{
    let Some(watch) = watches.first_mut() else {
        return SHORT;
    };
    take_words(watch, word)
}

#[unsafe(no_mangle)]
pub extern "C" fn linewatch_store_in(watches: &[[[[u64; 1024]; 4]; 2]], store: usize) -> u64
    ensures { result ≡ store_at watches.now store }
{
    let Some(watch) = watches.first() else {
        return 0;
    };
    store_value(watch, store)
}

#[unsafe(no_mangle)]
pub extern "C" fn linewatch_met_in(
    watches: &[[[[u64; 1024]; 4]; 2]],
    monitor: usize,
    letter: usize,
) -> u64
    ensures { result ≡ met_at watches.now monitor letter }
{
    let Some(watch) = watches.first() else {
        return 0;
    };
    letter_met(watch, monitor, letter)
}

#[unsafe(no_mangle)]
pub extern "C" fn linewatch_ticks_in(watches: &[[[[u64; 1024]; 4]; 2]]) -> u64
    ensures { result ≡ ticks_at watches.now }
{
    let Some(watch) = watches.first() else {
        return 0;
    };
    tick_count(watch)
}
