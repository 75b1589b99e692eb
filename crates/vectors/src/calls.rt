// Looks and takes on the watch of a text, a printed line for each, and the totals.
ghost use Rattle.std.specs.Prelude.{◌≤◌, length};

use monitor::{Fault, look, take};
use rules::{Counts, Refused, Start, Watch};
use sheet::totals;
use std::io;
use std::io::{Cursor, Write};

// How many bytes a call has: the letter L or T, and a word of eight bytes, lowest first.
const CALL: usize = 9;

#[derive(Clone, Copy)]
enum Call {
    Look(u64),
    Take(u64),
}

// The call that those bytes are.
fn call_of(bytes: &[u8]) -> Option<Call> {
    let (letter, word) = bytes.split_first()?;
    let word = u64::from_le_bytes(*word.first_chunk::<8>()?);
    match *letter {
        b'L' => Some(Call::Look(word)),
        b'T' => Some(Call::Take(word)),
        _ => None,
    }
}

// Whether the bytes are whole calls.
pub fn are_calls(bytes: &[u8]) -> bool {
    bytes.chunks(CALL).all(|call| call_of(call).is_some())
}

fn put_answer(page: &mut impl Write, answer: Result<(), Fault>) -> io::Result<()> {
    match answer {
        Ok(()) => write!(page, "ok"),
        Err(Fault::Bad(number)) => write!(page, "bad {number}"),
        Err(Fault::Refused(refusal)) => write!(page, "refused {}", refusal.number()),
    }
}

// The first line: both counts, or the refusal.
fn put_outcome(page: &mut impl Write, outcome: Result<Counts, Refused>) -> io::Result<()> {
    match outcome {
        Ok(counts) => writeln!(page, "rows {} letters {}", counts.rows, counts.letters),
        Err(Refused::AtByte(why, place)) => writeln!(page, "refused {} {place}", why.number()),
        Err(Refused::AtLetter(why, monitor, letter)) => {
            writeln!(page, "refused {} {monitor} {letter}", why.number())
        }
    }
}

// The line of a call, and the watch moved on by a take, whose line has the rows that it touched. A look leaves the watch.
fn put_call(page: &mut impl Write, watch: &mut Watch, call: Call) -> io::Result<()> {
    match call {
        Call::Look(word) => {
            write!(page, "look ")?;
            put_answer(page, look(*watch, word))?;
            writeln!(page, "")
        }
        Call::Take(word) => {
            let taken = take(*watch, word);
            *watch = taken.watch;
            write!(page, "take ")?;
            put_answer(page, taken.answer)?;
            writeln!(page, " touched {}", taken.touched)
        }
    }
}

// A line for each call, which the watch goes through.
fn put_calls(page: &mut impl Write, watch: &mut Watch, calls: &[u8]) -> io::Result<()> {
    for bytes in calls.chunks(CALL) {
        let Some(call) = call_of(bytes) else {
            return Ok(());
        };
        put_call(page, watch, call)?;
    }
    Ok(())
}

// The first line for a text and, if it was accepted, one for each call: whether it was.
fn put_lines(page: &mut impl Write, start: &mut Start, calls: &[u8]) -> io::Result<bool> {
    put_outcome(page, start.outcome)?;
    if start.outcome.is_err() {
        return Ok(false);
    }
    put_calls(page, &mut start.watch, calls)?;
    Ok(true)
}

// The totals of the watch, if they fit: how many bytes of the page they take.
fn put_totals(page: &mut [u8], watch: Watch) -> usize
    ensures { result ≤ length page.new }
{
    let room = page.len();
    let count = totals(watch, page);
    if room < count {
        return 0;
    }
    count
}

// These lines and the totals: how many bytes of the page they take. What does not fit is left out.
pub fn print(text: &[u8], calls: &[u8], page: &mut [u8]) -> usize {
    let mut start = rules::open(text);
    let mut lines = Cursor::new(&mut page[..]);
    let put = put_lines(&mut lines, &mut start, calls);
    let end = lines.position() as usize;
    let Ok(true) = put else {
        return end;
    };
    if page.len() < end {
        return end;
    }
    end + put_totals(&mut page[end..], start.watch)
}
