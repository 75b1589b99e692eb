// One record: its bits and bytes, the reader and the writer.

ghost use Rattle.std.specs.Prelude.{◌≡◌, ◌++◌, false, ℕ, ◌+◌, ◌*◌, ◌%◌, ◌^◌, ◌≤◌, ◌<◌, length, drop};
ghost use Rattle.trace.specs.Record.{bit, byte, count, changes, record_of, written, word, read_record, idle, merged, judged};
ghost use Rattle.trace.specs.Whole.{read_at, lend};
ghost use Rattle.trace.specs.Shown.{shown_read, shown_written, shown_merged};

use super::TraceError;

/// A record that was read: its word, and its length in bytes.
#[derive(Clone, Copy, Debug, PartialEq, Eq)]
pub struct Record {
    pub word: u64,
    pub length: usize,
}

// Bit i of a map.
fn bit(i: usize, map: u8) -> u8
    requires { i < 8 }
    ensures { result ≡ bit i map }
{
    (map >> i) % 2
}

// Byte i of a word.
fn byte(i: usize, word: u64) -> u8
    requires { i < 8 }
    ensures { result ≡ byte i word }
{
    ((word >> (8 * i)) % 256) as u8
}

// How many bits of a map stand: how many bytes follow it in a record.
fn count(map: u8) -> usize
    ensures { result ≡ count 8 map }
{
    u8::count_ones(map) as usize
}

// A byte as byte i of a word.
fn at_place(b: u8, i: usize) -> u64
    requires { i < 8 }
    ensures { result ≡ b * 2 ^ (8 * i) }
{
    (b as u64) << (8 * i)
}

// What the bytes behind a map byte make of the word before, or nothing where one of them is idle.
fn merge(given: &[u8], before: u64, map: u8) -> Option<u64>
    requires { count 8 map ≤ length given.now }
    ensures { (n : ℕ) → shown_merged result n ≡ judged false (idle 8 before map given.now) (word (merged before map given.now) n) }
{
    let mut word: u64 = 0;
    // a position by hand: it goes on only where a bit stands, and an iterator's `next` would have to
    // be told that a byte is left
    let mut at: usize = 0;
    for i in 0..8 {
        let old = byte(i, before);
        let mut new = old;
        if bit(i, map) == 1 {
            new = given[at];
            at += 1;
            if new == old {
                return None;
            }
        }
        word += at_place(new, i);
    }
    Some(word)
}

/// Reads the record that begins where `rest` does. `before` is the word before it.
// It is inlined, and so is `read_within`: with a call for each record a whole trace takes up to a third longer.
#[inline(always)]
pub fn read_record(rest: &[u8], before: u64) -> Result<Option<Record>, TraceError>
    ensures { shown_read result ≡ read_record rest.now before }
{
    let Some((map, given)) = rest.split_first() else {
        return Ok(None);
    };
    let follow = count(*map);
    if given.len() < follow {
        return Err(TraceError::Torn(0));
    }
    let Some(word) = merge(given, before, *map) else {
        return Err(TraceError::Idle(0));
    };
    Ok(Some(Record {
        word,
        length: 1 + follow,
    }))
}

// Reads the record that begins at byte `at` of a trace, which is not past its end. Reading itself goes by the part from there on:
// with the position handed on to it, it is a fifth slower where most bytes change.
#[inline(always)]
pub(crate) fn read_within(
    trace: &[u8],
    at: usize,
    before: u64,
) -> Result<Option<Record>, TraceError>
    requires { at ≤ length trace.now }
    ensures { shown_read result ≡ read_at trace.now at before }
{
    match read_record(&trace[at..], before) {
        Ok(item) => Ok(item),
        Err(TraceError::Torn(_)) => Err(TraceError::Torn(at)),
        Err(TraceError::Idle(_)) => Err(TraceError::Idle(at)),
        Err(TraceError::Short) => Err(TraceError::Short),
    }
}

/// Reads the record that begins at byte `at` of a trace, and names that byte where it refuses.
pub fn read_at(trace: &[u8], at: usize, before: u64) -> Result<Option<Record>, TraceError>
    ensures { shown_read result ≡ read_at trace.now at before }
{
    if trace.len() < at {
        return Err(TraceError::Torn(at));
    }
    read_within(trace, at, before)
}

// The map of the bytes that changed.
fn changes(before: u64, word: u64) -> u8
    ensures { result ≡ changes before word }
{
    let mut map: u8 = 0;
    for i in 0..8 {
        if byte(i, before) != byte(i, word) {
            map += 1 << i;
        }
    }
    map
}

// Writes the bytes of a word whose bit stands behind the map byte.
fn put(map: u8, word: u64, out: &mut [u8])
    requires { count 8 map < length out.old }
    ensures { out.new ≡ record_of map word ++ drop (1 + count 8 map) out.old }
{
    out[0] = map;
    // a position by hand: it goes on only where a bit stands
    let mut at: usize = 1;
    for i in 0..8 {
        if bit(i, map) == 1 {
            out[at] = byte(i, word);
            at += 1;
        }
    }
}

/// Writes the record of a word, after the word before it, at the start of a lent buffer.
pub fn write_record(before: u64, word: u64, out: &mut [u8]) -> Result<usize, TraceError>
    ensures { (shown_written result ≡ (lend (written before word) out.old).answer) × (out.new ≡ (lend (written before word) out.old).list) }
{
    let map = changes(before, word);
    let length = 1 + count(map);
    if out.len() < length {
        return Err(TraceError::Short);
    }
    put(map, word, out);
    Ok(length)
}

// The length of the record of a word.
pub(crate) fn record_length(before: u64, word: u64) -> usize
    ensures { result ≡ length (written before word) }
{
    1 + count(changes(before, word))
}

// Writes the record of a word where there is room for it, and returns its length.
pub(crate) fn put_record(before: u64, word: u64, out: &mut [u8]) -> usize
    requires { length (written before word) ≤ length out.old }
    ensures { (result ≡ length (written before word)) × (out.new ≡ written before word ++ drop result out.old) }
{
    let map = changes(before, word);
    put(map, word, out);
    1 + count(map)
}
