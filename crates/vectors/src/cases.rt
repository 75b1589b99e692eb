// The cases of a file: name, text, trace and sheet, each a part behind its length of four bytes, lowest first. A file that
// holds anything else is named as damaged.
ghost use Rattle.std.specs.Prelude.{◌≡◌, ◌+◌, ◌≤◌, length, IfSome};

use crate::input::read_full;
use crate::sheets::Case;
use crate::show;
use std::fs;
use std::rt::Files;

// The part at the front, and what is behind it; none if the part is not all there.
fn part(file: &[u8]) -> Option<(&[u8], &[u8])>
    ensures { IfSome result (λ p. 4 + length p.1.now ≤ length file.now) }
{
    let (length, rest) = file.split_first_chunk::<4>()?;
    rest.split_at_checked(u32::from_le_bytes(*length) as usize)
}

// The case at the front, and what is behind it; none if the case is not all there.
fn case(file: &[u8]) -> Option<(Case, &[u8])>
    ensures { IfSome result (λ p. 4 + length p.1.now ≤ length file.now) }
{
    let (name, rest) = part(file)?;
    let (text, rest) = part(rest)?;
    let (trace, rest) = part(rest)?;
    let (sheet, rest) = part(rest)?;
    let case = Case {
        name,
        text,
        trace,
        sheet,
    };
    Some((case, rest))
}

fn walk(rt: &impl Print, list: &str, file: &[u8]) {
    let mut cases = 0;
    let mut differ = 0;
    let mut rest = file;
    while !rest.is_empty() {
        let Some((case, behind)) = case(rest) else {
            show::damaged(rt, list, file.len() - rest.len());
            return;
        };
        if !case.is_right() {
            show::differs(rt, list, case.name);
            differ += 1;
        }
        cases += 1;
        rest = behind;
    }
    show::tally(rt, list, cases, differ);
}

// Room for a file: about twice the largest. A larger one is cut, and so damaged.
fn room() -> [u8; 1_048_576]
    ensures { 1048576 ≡ length result }
{
    [0; 1_048_576]
}

// Prints the sheet of every case of the file with that name, compares it, and prints the tally.
pub fn run<R: Files + Print>(rt: &R, errors: &impl Print, list: &str) {
    let mut opened = match fs::open(rt, list) {
        Ok(opened) => opened,
        Err(error) => {
            show::fail(errors, list, &error);
            return;
        }
    };
    let mut file = room();
    let n = read_full(&mut opened, &mut file);
    walk(rt, list, &file[..n]);
}
