// Token cases: standard input holds texts, each closed by a `$`. For each it prints a line with the text's tokens, by kind, places
// and value, and a line with where the token lies that is read from each position, one past the end included.

#![tactic(auto)]

ghost use Rattle.std.specs.Prelude.{◌≤◌, length, IfOk};

use lexer::{Kind, Token, rule_words, token_at};
use std::io::Read;
use std::{fmt, io};

const CLOSE: u8 = b'$';

// A kind as it is printed.
#[derive(Clone, Copy)]
struct KindText(Kind);

impl fmt::Display for KindText {
    fn fmt<W: fmt::Write>(&self, f: &mut fmt::Formatter<W>) -> fmt::Result {
        match self.0 {
            Kind::Name => write!(f, "name"),
            Kind::Word(word) => write!(f, "{}", word.spelling()),
            Kind::Number(value) => write!(f, "number {value}"),
            Kind::Sign(sign) => write!(f, "sign {}", sign.number()),
            Kind::End => write!(f, "end"),
            Kind::Knot => write!(f, "knot"),
        }
    }
}

// Where a token lies, as it is printed.
#[derive(Clone, Copy)]
struct Places(Token);

impl fmt::Display for Places {
    fn fmt<W: fmt::Write>(&self, f: &mut fmt::Formatter<W>) -> fmt::Result {
        write!(f, "{}-{}", self.0.place, self.0.after)
    }
}

// The tokens of a text, of which there are at most its bytes and the last.
fn print_tokens(rt: &impl Print, text: &[u8]) -> io::Result<()> {
    let mut at = 0;
    for _ in 0..=text.len() {
        let t = token_at(rule_words(), text, at);
        print!(rt; "{} {}", Places(t), KindText(t.kind))?;
        if matches!(t.kind, Kind::End | Kind::Knot) {
            return Ok(());
        }
        print!(rt; ", ")?;
        at = t.after;
    }
    Ok(())
}

// Where the token lies that is read from each position.
fn print_positions(rt: &impl Print, text: &[u8]) -> io::Result<()> {
    for at in 0..=text.len() + 1 {
        print!(rt; "  {}", Places(token_at(rule_words(), text, at)))?;
    }
    Ok(())
}

fn run_cases(rt: &impl Print, all: &[u8]) -> io::Result<()> {
    for part in all.split_inclusive(|b| *b == CLOSE) {
        let text = part.strip_suffix(&[CLOSE]).unwrap_or(part);
        print_tokens(rt, text)?;
        print!(rt; "\n")?;
        print_positions(rt, text)?;
        print!(rt; "\n")?;
    }
    Ok(())
}

// Reads until `buf` is full or the input ends, and answers how many bytes it put at the start of `buf`.
fn read_full(rt: &impl Input, buf: &mut [u8]) -> io::Result<usize>
    ensures { IfOk result (λ n. n ≤ length buf.new) }
{
    let mut reader = rt.reader();
    let mut done = 0;
    // a loop over short reads: no heap, so no `read_to_end`, and `read_exact` does not say how many bytes came
    while done < buf.len() {
        let n = reader.read(&mut buf[done..])?;
        if n == 0 {
            break;
        }
        done += n;
    }
    Ok(done)
}

fn main(rt: HostRuntime) -> io::Result<()> {
    let mut buf = [0; 65536];
    let n = read_full(&rt, &mut buf)?;
    run_cases(&rt, &buf[..n])
}
