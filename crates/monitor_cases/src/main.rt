// Looks and takes on watches that no opening gives, whose rows lead round in circles. A row is entered once a tick and leaving never forks, so
// that each answer comes within some million calls (specs/Walk.antt of `monitor`); without that the first would take 2^4096.

#![tactic(auto)]

mod show;

use rules::Watch;
use std::io;
use words::{RowKind, quad};

// Rows of one kind. The operands of a row and the row above it are so many rows further on, and the last is followed by the first.
fn circle(kind: RowKind, left: usize, right: usize, up: usize) -> [u64; 1024] {
    let mut rows = [0u64; 1024];
    for (i, row) in rows.iter_mut().enumerate() {
        *row = quad(
            kind.number(),
            (i + left % 1024) % 1024,
            (i + right % 1024) % 1024,
            (i + up % 1024) % 1024,
        );
    }
    rows
}

// The same, but for the last row: an `@` whose left operand is the first row, so that who comes there from another has ended a thread.
fn line(kind: RowKind) -> [u64; 1024] {
    let mut rows = circle(kind, 1, 1, 1);
    rows[1023] = quad(RowKind::Pipe.number(), 0, 0, 0);
    rows
}

// Letters at each fourth row.
fn fourth() -> [u16; 256] {
    let mut places = [0u16; 256];
    for (i, place) in places.iter_mut().enumerate() {
        *place = (4 * i) as u16;
    }
    places
}

// All letters are marked, and all monitors are at their start, or none.
fn marked(starts: u8) -> [u8; 288] {
    let mut marks = [1u8; 288];
    marks[256..].fill(starts);
    marks
}

// A look and a take of a word by 32 monitors, each with row 0 as its own and the last with all 256 letters, each met as often as can be
// told, and counted by every limit, of more than there are.
fn call(
    rt: &impl Print,
    table: [u64; 1024],
    starts: u8,
    ticks: u64,
    stopped: bool,
) -> io::Result<()> {
    let places = fourth();
    let marks = marked(starts);
    let watch = Watch {
        table,
        rows: 1024,
        look: [0; 256],
        letters: 256,
        want: [0; 256],
        monitors: 32,
        held: [0; 256],
        before: 0,
        links: [0; 1024],
        wires: 64,
        numbers: [0; 1024],
        stores: 0,
        places,
        own: [0; 32],
        firsts: [0; 32],
        values: [0; 16],
        marks,
        ticks,
        totals: [4294967295; 256],
        stopped,
        counted: [255; 256],
        windows: [65535; 1056],
    };
    let looked = monitor::look(watch, 0);
    show::answer(rt, "look", looked)?;
    let taken = monitor::take(watch, 0);
    let answer = taken.answer;
    show::answer(rt, "take", answer)
}

fn main(rt: HostRuntime) -> io::Result<()> {
    // each operand is the next row, or the row itself, or rows further on: no letter is ever reached
    call(&rt, circle(RowKind::Alternative, 1, 1, 1), 1, 0, false)?;
    call(&rt, circle(RowKind::Alternative, 0, 0, 1), 1, 0, false)?;
    call(&rt, circle(RowKind::Sequence, 2, 3, 5), 1, 0, false)?;
    // stars around stars: each can be left, and the one above is asked again
    call(&rt, circle(RowKind::Star, 1, 0, 1), 1, 0, false)?;
    // every letter is left up a long line, which ends
    call(&rt, line(RowKind::Alternative), 0, 0, false)?;
    // and up one that does not
    call(&rt, circle(RowKind::Alternative, 1, 1, 1), 0, 0, false)?;
    // the last tick that there is, and one more; a stopped watch is that first
    call(&rt, line(RowKind::Alternative), 0, 999999, false)?;
    call(&rt, line(RowKind::Alternative), 0, 1000000, false)?;
    call(&rt, line(RowKind::Alternative), 0, 1000000, true)
}
