// The lines of the sheet (docs/REFERENCE.md, P), each put on a page, and the line that is kept from good tick to good tick.
ghost use Rattle.std.specs.Prelude.{◌≡◌, ◌+◌, ◌<◌, ◌≤◌, [], ◌∷◌};
ghost use Rattle.meaning.specs.Sheet.{refusal_line, counts_line, clean_line};
ghost use Rattle.sheet.specs.Kept.{Kept};
ghost use Rattle.sheet.specs.Lines.{ok_line, bad_line};
ghost use Rattle.sheet.specs.Pages.{Printed};

use super::page::{Page, pairs, store_word};
use itoa::write_digits;

// The line of a good tick, in which from one to the next little changes: its bytes, where its number begins, and the digits of every byte.
#[derive(Drop)]
pub(crate) struct TickLine {
    bytes: [u8; 41],
    from: usize,
    pairs: [u16; 256],
}

impl TickLine {
    // The line of tick `t`, blank where the word goes.
    pub(crate) fn new(t: u64) -> TickLine
        ensures { Kept result t }
    {
        let mut bytes = [b' '; 41];
        bytes[38] = b'o';
        bytes[39] = b'k';
        bytes[40] = b'\n';
        let from = write_digits(t, &mut bytes, 20);
        TickLine {
            bytes,
            from,
            pairs: pairs(),
        }
    }

    // The line of tick `t` becomes that of the next: nine times of ten only the last digit changes.
    pub(crate) fn count_on(&mut self, t: u64)
        requires { Kept self.old t × (t < 1000000) }
        ensures { Kept self.new (t + 1) }
    {
        let last = self.bytes[19];
        if last < b'9' {
            self.bytes[19] = last + 1;
            return;
        }
        self.from = write_digits(t + 1, &mut self.bytes, 20);
    }
}

impl<'a> Page<'a> {
    // A refusal with a number and one more: its byte, or its tick.
    pub(crate) fn refusal(&mut self, number: u8, place: u64)
        requires { self.old.at < 4294967296 }
        ensures printed { Printed self.old self.new (refusal_line number (place ∷ [])) }
        ensures short { self.new.at ≤ self.old.at + 64 }
    {
        self.text(b"refused");
        self.number(u64::from(number));
        self.number(place);
        self.byte(b'\n');
    }

    // A refusal at a letter of a monitor.
    pub(crate) fn refusal_at(&mut self, number: u8, monitor: u64, letter: u64)
        requires { self.old.at < 4294967296 }
        ensures printed { Printed self.old self.new (refusal_line number (monitor ∷ letter ∷ [])) }
        ensures short { self.new.at ≤ self.old.at + 128 }
    {
        self.text(b"refused");
        self.number(u64::from(number));
        self.number(monitor);
        self.number(letter);
        self.byte(b'\n');
    }

    // Both counts of an opened text.
    pub(crate) fn counts(&mut self, rows: u64, letters: u64)
        requires { self.old.at < 4294967296 }
        ensures printed { Printed self.old self.new (counts_line (record { rows = rows; letters = letters })) }
        ensures short { self.new.at ≤ self.old.at + 64 }
    {
        self.text(b"rows");
        self.number(rows);
        self.text(b" letters");
        self.number(letters);
        self.byte(b'\n');
    }

    // A good tick, whose line is kept but for the word; its number is named for the contract alone.
    pub(crate) fn good(&mut self, line: &mut TickLine, t: u64, word: u64)
        requires { Kept line.old t × (self.old.at < 4294967296) }
        ensures printed { Printed self.old self.new (ok_line t word) }
        ensures short { self.new.at ≤ self.old.at + 64 }
        ensures kept { Kept line.new t }
    {
        store_word(word, &line.pairs, &mut line.bytes);
        self.text(&line.bytes[line.from..]);
    }

    // A bad tick: the kept line up to its verdict, and the number of the monitor, or of the limit and 32.
    pub(crate) fn bad(&mut self, line: &mut TickLine, t: u64, word: u64, monitor: u64)
        requires { Kept line.old t × (self.old.at < 4294967296) }
        ensures printed { Printed self.old self.new (bad_line t word monitor) }
        ensures short { self.new.at ≤ self.old.at + 64 }
    {
        store_word(word, &line.pairs, &mut line.bytes);
        self.text(&line.bytes[line.from..38]);
        self.text(b"bad");
        self.number(monitor);
        self.byte(b'\n');
    }

    // The last line of a trace without a bad tick.
    pub(crate) fn clean(&mut self, ticks: u64)
        requires { self.old.at < 4294967296 }
        ensures printed { Printed self.old self.new (clean_line ticks) }
        ensures short { self.new.at ≤ self.old.at + 64 }
    {
        self.text(b"clean");
        self.number(ticks);
        self.byte(b'\n');
    }
}
