// The line watch as a program: reads `rules.txt` and `trace.bin` in the current folder, a file that it cannot read counting as
// empty, and prints the sheet. It answers as records come: what a read gave is judged and printed before the next read, so that
// `trace.bin` may be a FIFO that a recorder feeds. A trace may have any length: a read takes what is there, up to 4,096 bytes, and
// a record cut by its end is read again with the next bytes. An empty read is the end of the trace, and so is one that fails, but
// one that was interrupted is made again. A standard output that takes no more ends the program at the next line, without a word.
#![tactic(auto)]

ghost use Rattle.std.specs.Prelude.{◌≡◌, ◌≤◌, length, IfSome};

use rules::Watch;
use sheet::{begin, finish, run};
use std::fs;
use std::io::{ErrorKind, Read};
use std::rt::Files;

// More reads than any trace takes, since the program is proved to end. A record has at most 9 bytes, and the one behind 1,000,000
// ticks ends every sheet: a recorder that gives one byte at a time is asked at most 9,000,009 times, the empty read at the end of
// its trace among them. That leaves 999,991 reads that may be interrupted.
const READS: usize = 10_000_000;

fn main(rt: HostRuntime) {
    let _ = watch(&rt);
}

// The program, until its end or until the standard output takes no more.
fn watch<R: Files + Print>(rt: &R) -> Option<()> {
    let mut room = text_room();
    let text = read_file(rt, "rules.txt", &mut room);
    let mut line = [0u8; 128];
    let begun = begin(text, &mut line);
    print(rt, &line, begun.at)?;
    if begun.ended {
        return Some(());
    }
    match fs::open(rt, "trace.bin") {
        Ok(mut trace) => watch_trace(rt, &mut trace, begun.watch),
        Err(_) => end(rt, begun.watch, 0),
    }
}

// Room for one byte more than a text may have: by that a longer one is told.
fn text_room() -> [u8; 16385]
    ensures { 16385 ≡ length result }
{
    [0; 16385]
}

// Room for what a read prints: each of its 4,096 bytes at most a record, whose line has at most 31 bytes; and the totals
// behind them, at most 24 bytes for each of 256 letters, and their sum.
fn sheet_room() -> [u8; 139264]
    ensures { 139264 ≡ length result }
{
    [0; 139264]
}

// Room for the bytes of a trace that are not judged yet.
fn trace_room() -> [u8; 4096]
    ensures { 4096 ≡ length result }
{
    [0; 4096]
}

// Reads until the buffer is full, the input ends or a read fails: how many bytes there are.
fn read_full(input: &mut impl Read, buffer: &mut [u8]) -> usize
    ensures { result ≤ length buffer.new }
{
    let mut done: usize = 0;
    // a position by hand: a read gives as many bytes as it likes
    while done < buffer.len() {
        match input.read(&mut buffer[done..]) {
            Ok(0) | Err(_) => break,
            Ok(got) => done += got,
        }
    }
    done
}

// What is read from a file into the buffer.
fn read_file<'a>(rt: &impl Files, name: &str, buffer: &'a mut [u8]) -> &'a [u8]
    ensures { length result.now ≤ length buffer.old }
{
    match fs::open(rt, name) {
        Ok(mut file) => {
            let count = read_full(&mut file, buffer);
            &buffer[..count]
        }
        Err(_) => &buffer[..0],
    }
}

// Prints the first bytes of a buffer: nothing where they are not there or not taken.
fn print(rt: &impl Print, bytes: &[u8], count: usize) -> Option<()> {
    rt.write_all(bytes.get(..count)?).ok()
}

// Reads once, behind the bytes that were kept: how many bytes there are then, or nothing where no more come. A read that was
// interrupted gives nothing, and more may come.
fn fill(trace: &mut impl Read, buffer: &mut [u8], kept: usize) -> Option<usize>
    ensures { IfSome result (λ all. all ≤ length buffer.new) }
{
    if buffer.len() < kept {
        return None;
    }
    match trace.read(&mut buffer[kept..]) {
        Ok(0) => None,
        Ok(got) => Some(kept + got),
        Err(error) if error.kind() == ErrorKind::Interrupted => Some(kept),
        Err(_) => None,
    }
}

// Moves the bytes from `used` up to `all`, a cut record or none, to the front of the buffer: how many there are.
fn keep(buffer: &mut [u8], used: usize, all: usize) -> usize {
    if buffer.len() < all || all < used {
        return 0;
    }
    buffer.copy_within(used..all, 0);
    all - used
}

// Runs the watch over a trace, read by read. A run takes the watch by value and lays out its tables, 4 to 6 µs for each read,
// however much it gave: little beside the lines of 4,096 bytes, and most of the time where a recorder gives one byte at a time.
fn watch_trace(rt: &impl Print, trace: &mut impl Read, watch: Watch) -> Option<()> {
    let mut now = watch;
    let mut before: u64 = 0;
    // a length beside a buffer: no heap, fixed memory
    let mut buffer = trace_room();
    let mut kept: usize = 0;
    let mut out = sheet_room();
    for _ in 0..READS {
        let Some(all) = fill(trace, &mut buffer, kept) else {
            break;
        };
        let ran = run(now, before, &buffer[..all], &mut out);
        print(rt, &out, ran.at)?;
        if ran.ended {
            return Some(());
        }
        now = ran.watch;
        before = ran.before;
        kept = keep(&mut buffer, ran.used, all);
    }
    end(rt, now, kept)
}

// Prints the last lines.
fn end(rt: &impl Print, watch: Watch, left: usize) -> Option<()> {
    let mut lines = [0u8; 8192];
    let at = finish(watch, left, &mut lines);
    print(rt, &lines, at)
}
