// A letter at a tick: whether it is met, and what it writes (specs/Letters.antt).
ghost use Rattle.std.specs.Prelude.{◌≡◌, List, ℕ, ◌<◌, set};
ghost use Rattle.monitor.specs.Letters.{given, link_value, test_met, letter_met, write_slot, write_letter};

use super::tables::{BEFORE, HELD, LETTERS, LINKS, NUMBERS, WANTED, WORD};
use masks::passes;
use words::{part0, part1, part2, word_at};

// What a link's store is compared with, or what is written there.
fn link_value(link: u64, number: u64, word: u64) -> u64
    ensures { result ≡ link_value link number word }
{
    if part1(link) == 2 {
        return number;
    }
    (word >> (part2(link) % 64)) & number
}

// What the walk judges by: the tables, the tick's word and the one before, and the store values before it.
// Speed: the marks and the layout go beside it; with them in it a tick took 3 to 7 hundredths longer.
#[derive(Clone, Copy)]
pub(crate) struct Tick<'a> {
    pub(crate) tables: &'a [[u64; 1024]; 4],
    pub(crate) words: [u64; 2],
    pub(crate) values: &'a [u64; 16],
}

impl<'a> Tick<'a> {
    // Whether the store test in a slot is met, or there is none.
    fn test_met(&self, slot: usize) -> bool
        requires { slot < 1024 }
        ensures { result ≡ test_met (given self.now.tables.now self.now.values.now self.now.words) slot }
    {
        let values = self.values;
        let link = self.tables[LINKS][slot];
        if link == 0 {
            return true;
        }
        word_at(values, part0(link))
            == link_value(link, self.tables[NUMBERS][slot], self.words[WORD])
    }

    // The letter test: wires, wires to be as before, and stores.
    pub(crate) fn letter_met(&self, letter: usize) -> bool
        requires { letter < 256 }
        ensures { result ≡ letter_met (given self.now.tables.now self.now.values.now self.now.words) letter }
    {
        let word = self.words[WORD];
        let letters = &self.tables[LETTERS];
        if !passes(letters[letter], letters[WANTED + letter], word) {
            return false;
        }
        if !passes(letters[HELD + letter], self.words[BEFORE], word) {
            return false;
        }
        if !self.test_met(4 * letter) {
            return false;
        }
        self.test_met(4 * letter + 1)
    }
}

// Stores a value; nothing where there is no such store.
fn put_value(store: usize, value: u64, values: &mut [u64])
    ensures { values.new ≡ set values.old store value }
{
    if values.len() <= store {
        return;
    }
    values[store] = value;
}

// The write in a slot, or none.
fn write_slot(slot: usize, words: &[u64; 2], tables: &[[u64; 1024]; 4], values: &mut [u64; 16])
    requires { slot < 1024 }
    ensures { (S : List ℕ) → values.new ≡ write_slot (given tables.now S words.now) slot values.old }
{
    let link = tables[LINKS][slot];
    if link == 0 {
        return;
    }
    put_value(
        part0(link),
        link_value(link, tables[NUMBERS][slot], words[WORD]),
        values,
    );
}

// The writes of a letter, in their order.
pub(crate) fn write_letter(
    letter: usize,
    words: &[u64; 2],
    tables: &[[u64; 1024]; 4],
    values: &mut [u64; 16],
)
    requires { letter < 256 }
    ensures { (S : List ℕ) → values.new ≡ write_letter (given tables.now S words.now) letter values.old }
{
    write_slot(4 * letter + 2, words, tables, values);
    write_slot(4 * letter + 3, words, tables, values);
}
