// Cases as they come on standard input, one behind the other, and the answer to each on standard output. A number has four bytes,
// lowest first; a string is its length and its bytes. A case is the letter of its kind, the number of its strings and the strings;
// an answer is a string. The first string of a case is not looked at.
// - S: text and trace, answered with the sheet;
// - T: text and calls, answered with a line for the text and one for each call (calls.rt).
// A case that is none of these, is cut short, or has a longer string or sheet than there is room for ends the program.
ghost use Rattle.std.specs.Prelude.{◌≡◌, length};

use crate::input::read_full;
use crate::{calls, show};
use sheet::linewatch_sheet;
use std::io::{Input, Read};

// So many cases are answered at most.
const CASES: usize = 1_000_000;

// Room for a string of a case.
fn string_room() -> [u8; 65536]
    ensures { 65536 ≡ length result }
{
    [0; 65536]
}

// Room for an answer. What goes beyond it is left out.
fn page_room() -> [u8; 131072]
    ensures { 131072 ≡ length result }
{
    [0; 131072]
}

// The byte that comes next.
fn read_byte(input: &mut impl Read) -> Option<u8> {
    let mut byte = [0u8; 1];
    if read_full(input, &mut byte) != 1 {
        return None;
    }
    Some(byte[0])
}

fn read_number(input: &mut impl Read) -> Option<usize> {
    let mut bytes = [0u8; 4];
    if read_full(input, &mut bytes) != 4 {
        return None;
    }
    Some(u32::from_le_bytes(bytes) as usize)
}

// The string that comes next, in the buffer.
fn read_string<'a>(input: &mut impl Read, buffer: &'a mut [u8]) -> Option<&'a [u8]> {
    let long = read_number(input)?;
    if buffer.len() < long {
        return None;
    }
    if read_full(input, &mut buffer[..long]) != long {
        return None;
    }
    Some(&buffer[..long])
}

fn write_string(rt: &impl Print, bytes: &[u8]) -> Option<()> {
    let long = u32::try_from(bytes.len()).ok()?;
    rt.write_all(&long.to_le_bytes()).ok()?;
    rt.write_all(bytes).ok()
}

// The length of the sheet on the page, unless it is too long.
fn sheet_on(text: &[u8], trace: &[u8], page: &mut [u8]) -> Option<usize> {
    match linewatch_sheet(text, trace, page) {
        0 => None,
        n => Some(n),
    }
}

// The length of the answer to a case, on the page.
fn answer(kind: u8, text: &[u8], other: &[u8], page: &mut [u8]) -> Option<usize> {
    match kind {
        b'S' => sheet_on(text, other, page),
        b'T' if calls::are_calls(other) => Some(calls::print(text, other, page)),
        _ => None,
    }
}

// Reads the strings of a case and answers it, if there is one.
fn answer_case(rt: &impl Print, input: &mut impl Read, kind: u8) -> Option<()> {
    if read_number(input)? != 3 {
        return None;
    }
    let mut text = string_room();
    read_string(input, &mut text)?;
    let text = read_string(input, &mut text)?;
    let mut other = string_room();
    let other = read_string(input, &mut other)?;
    let mut page = page_room();
    let end = answer(kind, text, other, &mut page)?;
    write_string(rt, page.get(..end)?)
}

// Answers cases until there are no more.
pub fn run<R: Input + Print>(rt: &R, errors: &impl Print) {
    let mut input = rt.reader();
    for _ in 0..CASES {
        let Some(kind) = read_byte(&mut input) else {
            return;
        };
        if answer_case(rt, &mut input, kind).is_none() {
            show::complain(errors, "vectors: no such case, or one too long");
            return;
        }
    }
}
