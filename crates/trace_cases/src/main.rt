// Runs wire records through the reader and the writer and prints what they answer.

#![tactic(auto)]

mod random;
mod show;

use show::line;
use std::io;

// The record of a word, and what reading it back answers.
fn there_and_back(rt: &impl Print, before: u64, word: u64) -> io::Result<()> {
    let mut buffer: [u8; 16] = [0xee; 16];
    show::answer(
        rt,
        "written",
        trace::write_record(before, word, &mut buffer),
    )?;
    show::bytes(rt, &buffer)?;
    show::read(rt, trace::read_record(&buffer, before))
}

// A record with all eight bytes, cut at every place.
fn cuts(rt: &impl Print, record: &[u8]) -> io::Result<()> {
    for length in 0..=record.len() {
        show::read(rt, trace::read_record(&record[..length], 0))?;
    }
    Ok(())
}

// The same record, into the first bytes of a buffer, of every number up to the record's own.
fn bins(rt: &impl Print, buffer: &mut [u8]) -> io::Result<()> {
    for room in 0..=buffer.len() {
        let written = trace::write_record(0, 0x1122_3344_5566_7788, &mut buffer[..room]);
        show::answer(rt, "written", written)?;
        show::bytes(rt, buffer)?;
    }
    Ok(())
}

// The reader used by itself, at every position of a trace and past its end.
fn positions(rt: &impl Print, records: &[u8]) -> io::Result<()> {
    for at in 0..8 {
        show::read(rt, trace::read_at(records, at, 0))?;
    }
    Ok(())
}

// A trace read into a list of three words.
fn into_three(rt: &impl Print, records: &[u8]) -> io::Result<()> {
    let mut words: [u64; 3] = [7; 3];
    show::answer(rt, "words", trace::count_words(records))?;
    show::answer(rt, "words", trace::read_trace(records, &mut words))?;
    show::words(rt, &words)
}

fn empty_traces(rt: &impl Print) -> io::Result<()> {
    line(rt, "nothing")?;
    show::read(rt, trace::read_record(b"", 0))?;
    show::read(rt, trace::read_at(b"", 0, 0))?;
    show::read(rt, trace::read_at(b"", 1, 0))?;
    into_three(rt, b"")
}

fn single_words(rt: &impl Print) -> io::Result<()> {
    line(rt, "one word")?;
    there_and_back(rt, 0, 0x1234)?;
    line(rt, "all eight bytes")?;
    there_and_back(rt, 0, 0x1122_3344_5566_7788)?;
    there_and_back(rt, 0xffff_ffff_ffff_ffff, 0)?;
    line(rt, "an unchanged word")?;
    there_and_back(rt, 0x1234, 0x1234)?;
    line(rt, "one byte changed")?;
    there_and_back(rt, 0x1122_3344_5566_7788, 0x1122_3344_0066_7788)
}

fn idle_bytes(rt: &impl Print) -> io::Result<()> {
    line(rt, "idle bytes")?;
    show::read(rt, trace::read_record(b"\x01\x00", 0))?;
    show::read(rt, trace::read_record(b"\x81\x05\x00", 0))?;
    show::read(rt, trace::read_record(b"\x80\x11", 0x1122_3344_5566_7788))?;
    line(rt, "torn before idle")?;
    show::read(rt, trace::read_record(b"\x03\x00", 0))
}

fn parts(rt: &impl Print) -> io::Result<()> {
    line(rt, "every cut")?;
    cuts(rt, b"\xff\x88\x77\x66\x55\x44\x33\x22\x11")?;
    line(rt, "every bin")?;
    let mut buffer: [u8; 9] = [0xee; 9];
    bins(rt, &mut buffer)?;
    line(rt, "every position")?;
    positions(rt, b"\x01\x05\x00\x01\x05\x02")
}

fn lists(rt: &impl Print) -> io::Result<()> {
    line(rt, "into three words")?;
    into_three(rt, b"\x01\x05\x00\x03\x06\x07")?;
    into_three(rt, b"\x01\x05\x00\x00\x00")?;
    into_three(rt, b"\x01\x05\x01\x05")?;
    into_three(rt, b"\x01\x05\x00\x03\x06")?;
    line(rt, "10000 words")?;
    random::there_and_back(rt)
}

fn main(rt: HostRuntime) -> io::Result<()> {
    empty_traces(&rt)?;
    single_words(&rt)?;
    idle_bytes(&rt)?;
    parts(&rt)?;
    lists(&rt)
}
