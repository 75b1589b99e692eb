// Texts at the limits that the shipped cases lack, made as the program runs. The cases have the others, each with one more:
// - 16,384 bytes: edge.bin, just-fits, overlong;
// - 64 wires in one field: edge.bin, number-max, wires-64-name; boundary.bin, h64;
// - 128 names, 16 stores, 32 monitors, 32 parentheses: boundary.bin, names128, names129, store16-more-names, store17, mon32,
//   mon33, paren32, paren33;
// - 256 letters by eight doublings: edge.bin, letters-256, letters-257.
use crate::sheets::Case;
use crate::show;
use std::io;
use std::io::{Cursor, Write};

// What was written there.
fn written<'a>(page: &'a Cursor<&mut [u8]>) -> &'a [u8] {
    let end = page.position() as usize;
    match page.get_ref().get(..end) {
        Some(bytes) => bytes,
        None => b"",
    }
}

// Whether the text gives the sheet with an empty trace. If not, its name is printed.
fn gives(rt: &impl Print, name: &[u8], text: &[u8], sheet: &[u8]) -> bool {
    let case = Case {
        name,
        text,
        trace: b"",
        sheet,
    };
    if case.is_right() {
        return true;
    }
    show::differs(rt, "limits", name);
    false
}

// Two letters, and the `||`.
fn wires_64(rt: &impl Print, page: &mut [u8]) -> io::Result<bool> {
    let mut text = Cursor::new(page);
    for n in 0..64 {
        write!(text, "input w{n}; ")?;
    }
    write!(text, "p -> w63 & !w0 || w0 & !w63; monitor p;")?;
    let sheet = b"rows 3 letters 2\nclean 0\nmet 0 0 0\nmet 0 1 0\ntotal 0\n";
    Ok(gives(rt, b"wires-64", written(&text), sheet))
}

// The name w64: 10 statements of 10 bytes, 54 of 11 and `input ` stand before it.
fn wires_65(rt: &impl Print, page: &mut [u8]) -> io::Result<bool> {
    let mut text = Cursor::new(page);
    for n in 0..65 {
        write!(text, "input w{n}; ")?;
    }
    write!(text, "p -> w0; monitor p;")?;
    Ok(gives(rt, b"wires-65", written(&text), b"refused 6 700\n"))
}

// p0 has one letter, each production after it twice those of the one before: p100 has 2^100.
fn write_doublings(text: &mut impl Write) -> io::Result<()> {
    write!(text, "input a; p0 -> a; ")?;
    for before in 0..100 {
        let n = before + 1;
        write!(text, "p{n} -> p{before}, p{before}; ")?;
    }
    Ok(())
}

// Monitor 0 passes the limit.
fn doublings(rt: &impl Print, page: &mut [u8]) -> io::Result<bool> {
    let mut text = Cursor::new(page);
    write_doublings(&mut text)?;
    write!(text, "monitor p100;")?;
    Ok(gives(rt, b"doublings", written(&text), b"refused 8 0 0\n"))
}

// Monitor 0 has 8 letters, monitor 1 passes the limit.
fn doublings_second(rt: &impl Print, page: &mut [u8]) -> io::Result<bool> {
    let mut text = Cursor::new(page);
    write_doublings(&mut text)?;
    write!(text, "monitor p3, p100, p99;")?;
    Ok(gives(rt, b"doublings-second", written(&text), b"refused 8 1 0\n"))
}

// No monitor has the many letters: `a, a` with its `,` and `a`.
fn doublings_unused(rt: &impl Print, page: &mut [u8]) -> io::Result<bool> {
    let mut text = Cursor::new(page);
    write_doublings(&mut text)?;
    write!(text, "monitor p1, p0;")?;
    let sheet = b"rows 4 letters 3\nclean 0\nmet 0 0 0\nmet 0 1 0\nmet 1 0 0\ntotal 0\n";
    Ok(gives(rt, b"doublings-unused", written(&text), sheet))
}

// 120 productions, each the one before in 32 parentheses, which have no rows: one letter.
fn chain(rt: &impl Print, page: &mut [u8]) -> io::Result<bool> {
    let mut text = Cursor::new(page);
    write!(text, "input a; p0->a;")?;
    for before in 0..120 {
        let n = before + 1;
        write!(
            text,
            "p{n}->((((((((((((((((((((((((((((((((p{before}))))))))))))))))))))))))))))))));"
        )?;
    }
    write!(text, "monitor p120;")?;
    let sheet = b"rows 1 letters 1\nclean 0\nmet 0 0 0\ntotal 0\n";
    Ok(gives(rt, b"chain", written(&text), sheet))
}

// 256 letters, 255 stars, 255 commas.
fn starred(rt: &impl Print, page: &mut [u8]) -> io::Result<bool> {
    let mut text = Cursor::new(page);
    write!(text, "input D[7:0]; p -> ")?;
    for n in 1..256 {
        write!(text, "D=={n}*,")?;
    }
    write!(text, "D==0; monitor p;")?;
    let mut room = [0u8; 4096];
    let mut sheet = Cursor::new(&mut room[..]);
    write!(sheet, "rows 766 letters 256\nclean 0\n")?;
    for n in 0..256 {
        write!(sheet, "met 0 {n} 0\n")?;
    }
    write!(sheet, "total 0\n")?;
    Ok(gives(rt, b"starred", written(&text), written(&sheet)))
}

// 255 starred letters and nothing else: a hollow monitor.
fn starred_alone(rt: &impl Print, page: &mut [u8]) -> io::Result<bool> {
    let mut text = Cursor::new(page);
    write!(text, "input D[7:0]; p -> ")?;
    for n in 1..255 {
        write!(text, "D=={n}*,")?;
    }
    write!(text, "D==255*; monitor p;")?;
    Ok(gives(rt, b"starred-alone", written(&text), b"refused 10 0 0\n"))
}

// Makes every text, compares its sheet, and prints the tally.
pub fn run(rt: &impl Print) {
    let mut page = [0u8; 16384];
    let right = [
        wires_64(rt, &mut page),
        wires_65(rt, &mut page),
        doublings(rt, &mut page),
        doublings_second(rt, &mut page),
        doublings_unused(rt, &mut page),
        chain(rt, &mut page),
        starred(rt, &mut page),
        starred_alone(rt, &mut page),
    ];
    let differ = right
        .iter()
        .filter(|right| !matches!(right, Ok(true)))
        .count();
    show::tally(rt, "limits", right.len(), differ);
}
