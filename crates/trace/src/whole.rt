// Whole traces: a list of words as records, and records as a list of words. A call that is refused
// writes nothing: it measures first, and writes then.

ghost use Rattle.std.specs.Prelude.{◌≡◌, ◌++◌, ◌≤◌, length, drop};
ghost use Rattle.trace.specs.Answer.{value};
ghost use Rattle.trace.specs.Whole.{write_trace, read_trace, counted, lend, lend_answer};
ghost use Rattle.trace.specs.Shown.{shown_trace, shown_written};

use super::TraceError;
use super::record::{Record, put_record, read_within, record_length};

/// How many words a trace holds, where all of its records are right.
pub fn count_words(trace: &[u8]) -> Result<usize, TraceError>
    ensures { shown_trace result ≡ counted (read_trace trace.now) }
{
    let mut at: usize = 0;
    let mut before: u64 = 0;
    let mut n: usize = 0;
    while let Some(Record { word, length }) = read_within(trace, at, before)? {
        at += length;
        before = word;
        n += 1;
    }
    Ok(n)
}

// Stores the words of a trace whose records are right, one for each element of the list.
fn fill(trace: &[u8], words: &mut [u64])
    requires { counted (read_trace trace.now) ≡ value (length words.old) }
    ensures { value words.new ≡ read_trace trace.now }
{
    let mut at: usize = 0;
    let mut before: u64 = 0;
    for word in words.iter_mut() {
        match read_within(trace, at, before) {
            Ok(Some(record)) => {
                *word = record.word;
                at += record.length;
                before = record.word;
            }
            Ok(None) => return,
            Err(_) => return,
        }
    }
}

/// Reads a trace into a lent list of words.
pub fn read_trace(trace: &[u8], words: &mut [u64]) -> Result<usize, TraceError>
    ensures { (shown_trace result ≡ (lend_answer (read_trace trace.now) words.old).answer) × (words.new ≡ (lend_answer (read_trace trace.now) words.old).list) }
{
    let n = count_words(trace)?;
    if words.len() < n {
        return Err(TraceError::Short);
    }
    fill(trace, &mut words[..n]);
    Ok(n)
}

/// The length of the trace of a list of words.
pub fn trace_length(words: &[u64]) -> usize
    ensures { result ≡ length (write_trace words.now) }
{
    let mut n: usize = 0;
    let mut before: u64 = 0;
    for &word in words {
        n += record_length(before, word);
        before = word;
    }
    n
}

// Writes the records of a list of words where there is room for them.
fn put_all(words: &[u64], out: &mut [u8])
    requires { length (write_trace words.now) ≤ length out.old }
    ensures { out.new ≡ write_trace words.now ++ drop (length (write_trace words.now)) out.old }
{
    let mut at: usize = 0;
    let mut before: u64 = 0;
    for &word in words {
        at += put_record(before, word, &mut out[at..]);
        before = word;
    }
}

/// Writes the trace of a list of words into a lent buffer.
pub fn write_trace(words: &[u64], out: &mut [u8]) -> Result<usize, TraceError>
    ensures { (shown_written result ≡ (lend (write_trace words.now) out.old).answer) × (out.new ≡ (lend (write_trace words.now) out.old).list) }
{
    let length = trace_length(words);
    if out.len() < length {
        return Err(TraceError::Short);
    }
    put_all(words, out);
    Ok(length)
}
