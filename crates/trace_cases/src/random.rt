// Ten thousand words that a generator makes, written as a trace and read back.

use super::show;
use std::io;

const MANY: usize = 10_000;

// The next state of the generator (xorshift, by Marsaglia).
fn next(state: u64) -> u64 {
    let a = state ^ ((state % 0x8_0000_0000_0000) << 13);
    let b = a ^ (a >> 7);
    b ^ ((b % 0x8000_0000_0000) << 17)
}

// A word in which some bytes are the word before's: the mask's bytes are all ones or all zeros.
fn changed(before: u64, state: u64) -> u64 {
    let mask = state & 0x0101_0101_0101_0101;
    before ^ (state & (mask * 255))
}

fn fill(words: &mut [u64]) {
    let mut state: u64 = 88_172_645_463_325_252;
    let mut before: u64 = 0;
    for word in words.iter_mut() {
        state = next(state);
        before = changed(before, state);
        *word = before;
    }
}

// How many places two lists agree at.
fn agreeing(a: &[u64], b: &[u64]) -> usize {
    a.iter().zip(b).filter(|(x, y)| x == y).count()
}

fn through(
    rt: &impl Print,
    words: &mut [u64],
    records: &mut [u8],
    back: &mut [u64],
) -> io::Result<()> {
    fill(words);
    show::counted(rt, "length", trace::trace_length(words))?;
    let written = trace::write_trace(words, records);
    show::answer(rt, "written", written)?;
    let Ok(length) = written else {
        return Ok(());
    };
    let Some(records) = records.get(..length) else {
        return Ok(());
    };
    show::answer(rt, "words", trace::read_trace(records, back))?;
    show::counted(rt, "agreeing", agreeing(words, back))
}

pub fn there_and_back(rt: &impl Print) -> io::Result<()> {
    let mut words: [u64; MANY] = [0; MANY];
    let mut records: [u8; 90_000] = [0; 90_000];
    let mut back: [u64; MANY] = [0; MANY];
    through(rt, &mut words, &mut records, &mut back)
}
