// Prints what the reader and the writer answer: a value, or `refused` with number and place.

use std::fmt::Radix;
use std::io;
use trace::{Record, TraceError};

pub fn line(rt: &impl Print, text: &str) -> io::Result<()> {
    println!(rt; "{text}")
}

fn refused(rt: &impl Print, error: TraceError) -> io::Result<()> {
    let number = error.refusal().number();
    let place = error.place();
    println!(rt; "refused {number} {place}")
}

// What was read at a place.
pub fn read(rt: &impl Print, answer: Result<Option<Record>, TraceError>) -> io::Result<()> {
    match answer {
        Ok(Some(Record { word, length })) => println!(rt; "word {word:016x} {length}"),
        Ok(None) => line(rt, "end"),
        Err(error) => refused(rt, error),
    }
}

pub fn counted(rt: &impl Print, what: &str, n: usize) -> io::Result<()> {
    println!(rt; "{what} {n}")
}

// How many words were read, or bytes written.
pub fn answer(rt: &impl Print, what: &str, answer: Result<usize, TraceError>) -> io::Result<()> {
    match answer {
        Ok(n) => counted(rt, what, n),
        Err(error) => refused(rt, error),
    }
}

// Numbers in so many digits of base 16.
pub fn list<T: Radix + Copy>(rt: &impl Print, numbers: &[T], digits: usize) -> io::Result<()> {
    for number in numbers {
        print!(rt; " {number:0digits$x}")?;
    }
    line(rt, "")
}

pub fn bytes(rt: &impl Print, buffer: &[u8]) -> io::Result<()> {
    list(rt, buffer, 2)
}

pub fn words(rt: &impl Print, words: &[u64]) -> io::Result<()> {
    list(rt, words, 16)
}
