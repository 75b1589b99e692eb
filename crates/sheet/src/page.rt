// A page: a lent range on which bytes are put from a place on. What does not fit is left out, and the place moves on all the same.
ghost use Rattle.std.specs.Prelude.{◌≡◌, ◌+◌, ◌<◌, ◌≤◌, [], ◌∷◌, length};
ghost use Rattle.std.proofs.lemmas.List.Edits.{sets};
ghost use Rattle.meaning.specs.Sheet.{decimal, hexadecimal};
ghost use Rattle.sheet.specs.Digits.{hex_digit, pair_of, Pairs};
ghost use Rattle.sheet.specs.Pages.{Printed};

use itoa::Buffer;

// The range, and the place behind what was printed, which may be behind the range.
#[derive(Drop)]
pub(crate) struct Page<'a> {
    pub(crate) out: &'a mut [u8],
    pub(crate) at: usize,
}

impl<'a> Page<'a> {
    // One byte.
    pub(crate) fn byte(&mut self, byte: u8)
        requires { self.old.at < 8589934592 }
        ensures { Printed self.old self.new (byte ∷ []) }
    {
        if self.at < self.out.len() {
            self.out[self.at] = byte;
        }
        self.at += 1;
    }

    // A few bytes, each if it fits.
    fn bytes(&mut self, text: &[u8])
        requires { (length text.now ≤ 64) × (self.old.at < 8589934000) }
        ensures { Printed self.old self.new text.now }
    {
        for byte in text {
            self.byte(*byte);
        }
    }

    // A few bytes.
    pub(crate) fn text(&mut self, text: &[u8])
        requires { (length text.now ≤ 64) × (self.old.at < 8589934000) }
        ensures { Printed self.old self.new text.now }
    {
        let end = self.at + text.len();
        if self.out.len() < end {
            self.bytes(text);
            return;
        }
        self.out[self.at..end].copy_from_slice(text);
        self.at = end;
    }

    // A space and a number.
    pub(crate) fn number(&mut self, number: u64)
        requires { self.old.at < 8589930000 }
        ensures printed { Printed self.old self.new (32 ∷ decimal number) }
        ensures short { self.new.at ≤ self.old.at + 21 }
    {
        let mut digits = Buffer::new();
        self.byte(b' ');
        self.text(digits.format(number).as_bytes());
    }
}

// Digits by hand: a word is printed at every tick, and so its bytes are looked up in a table of pairs.

// A hexadecimal digit.
fn hex_digit(d: usize) -> u16
    requires { d < 16 }
    ensures { (result ≡ hex_digit d) × (result < 128) }
{
    if d < 10 {
        return 48 + d as u16;
    }
    87 + d as u16
}

// Both digits of a byte, the first one low.
fn pair_of(b: usize) -> u16
    requires { b < 256 }
    ensures { result ≡ pair_of b }
{
    hex_digit(b / 16) + 256 * hex_digit(b % 16)
}

// The digits of every byte: made once for many words.
pub(crate) fn pairs() -> [u16; 256]
    ensures { Pairs result }
{
    let mut table = [0u16; 256];
    for (i, pair) in table.iter_mut().enumerate() {
        *pair = pair_of(i);
    }
    table
}

// A word in 16 hexadecimal digits, from byte 21 of a line on.
pub(crate) fn store_word(word: u64, pairs: &[u16; 256], line: &mut [u8; 41])
    requires { Pairs pairs.now }
    ensures { line.new ≡ sets line.old 21 (hexadecimal 16 word) }
{
    for k in 0..8 {
        let byte = ((word >> (56 - 8 * k)) % 256) as usize;
        let pair = pairs[byte];
        let place = 21 + 2 * k;
        line[place] = (pair % 256) as u8;
        line[place + 1] = (pair / 256) as u8;
    }
}
