// Laying the rows and letters of an expression: from the words that a text is read into to the lists of numbers that a
// watch's table has (specs/Laying.antt).
ghost use Rattle.std.specs.Prelude.{◌≡◌, List, [], ◌∷◌, ℕ, ◌+◌, ◌<◌};
ghost use Rattle.std.proofs.Math.Option.{Option};
ghost use Rattle.meaning.specs.Expression.{Letter, Exp};
ghost use Rattle.words.specs.Words.{part0, part1, part2};
ghost use Rattle.rules.specs.Cells.{Link, Links};
ghost use Rattle.rules.specs.Laying.{row_code, with_row, link_word, link_number, slot_word, slot_number, two_slots, behind, with_slots, letters_in, with_letters, SlotAt, SomeSlot, LinksAt, SomeLinks, LetterAt, SomeLetter, BareAt, ExpAt, SomeExp, StoredIn};

use super::literals::{held_at, largest};
use super::parts::{NodeKind, is_letter};
use words::{part0, part1, part2, part3, quad};

// ---- links

// A link's first number, from its first word: its store with 2, or with 1 and the first of its wires.
fn link_word(word: u64) -> u64
    ensures { result ≡ link_word (part0 word) (part1 word) (part2 word) }
{
    let store = part0(word);
    if part2(word) == 0 {
        return quad(store, 2, 0, 0);
    }
    quad(store, 1, part1(word), 0)
}

// A link's second number: its own, or the ones of its width, 64 at most.
fn link_number(width: usize, number: u64) -> u64
    ensures { result ≡ link_number width number }
{
    if width == 0 {
        return number;
    }
    largest(width.min(64))
}

// The numbers of the link at an index; 0 where there is none.
fn slot_word(words: &[u64], cell: usize) -> u64
    requires { SomeSlot words.now cell }
    ensures { (c : ℕ) → (o : Option Link) → SlotAt words.now c cell o → result ≡ slot_word o }
{
    // fixed memory: a word has room for four bare numbers, and an index of 0 stands for none
    if cell == 0 {
        return 0;
    }
    link_word(words[cell])
}

fn slot_number(words: &[u64], cell: usize) -> u64
    requires { SomeSlot words.now cell }
    ensures { (c : ℕ) → (o : Option Link) → SlotAt words.now c cell o → result ≡ slot_number o }
{
    // fixed memory: a word has room for four bare numbers, and an index of 0 stands for none
    if cell == 0 {
        return 0;
    }
    link_number(part2(words[cell]), words[cell + 1])
}

// The index of the link behind the one at an index; 0 where there is none.
fn behind(words: &[u64], cell: usize) -> usize
    requires { SomeLinks words.now cell }
    ensures { (c : ℕ) → (xs : List Link) → LinksAt words.now c cell xs → Links words.now c result (behind xs) }
{
    // fixed memory: a word has room for four bare numbers, and an index of 0 stands for none
    if cell == 0 {
        return 0;
    }
    part3(words[cell])
}

// ---- letters and rows

// The node of a letter itself, below those of the productions that it came through.
fn unnamed(words: &[u64], node: usize) -> usize
    requires { SomeLetter words.now node }
    ensures { (c : ℕ) → (x : Letter) → LetterAt words.now c node x → BareAt words.now c result x }
{
    let mut at = node;
    // no plainer: no index is counted, each node tells the next
    while part0(words[at]) == NodeKind::Named.number() {
        at = part1(words[at]);
    }
    at
}

// The rows and letters of a watch's table.
#[derive(Drop)]
pub(crate) struct Tables {
    pub(crate) table: [u64; 1024],
    pub(crate) look: [u64; 256],
    pub(crate) want: [u64; 256],
    pub(crate) held: [u64; 256],
    pub(crate) links: [u64; 1024],
    pub(crate) numbers: [u64; 1024],
}

// The next row and letter.
#[derive(Clone, Copy, Debug, PartialEq, Eq)]
pub(crate) struct Laid {
    pub(crate) row: usize,
    pub(crate) letter: usize,
}

impl Tables {
    // Stores the links at two indices in two slots.
    fn put_two(&mut self, words: &[u64], first: usize, second: usize, at: usize)
        requires { (at + 1 < 1024) × SomeSlot words.now first × SomeSlot words.now second }
        ensures { (c : ℕ) → (o : Option Link) → (p : Option Link) → SlotAt words.now c first o → SlotAt words.now c second p
            → self.new ≡ with_slots self.old at (o ∷ p ∷ []) }
    {
        self.links[at] = slot_word(words, first);
        self.links[at + 1] = slot_word(words, second);
        self.numbers[at] = slot_number(words, first);
        self.numbers[at + 1] = slot_number(words, second);
    }

    // Stores links, which come the last first, as two slots in the order of the text; of more than two the last two.
    fn put_links(&mut self, words: &[u64], cell: usize, at: usize)
        requires { (at + 1 < 1024) × SomeLinks words.now cell }
        ensures { (c : ℕ) → (xs : List Link) → LinksAt words.now c cell xs → self.new ≡ with_slots self.old at (two_slots xs) }
    {
        let next = behind(words, cell);
        if next == 0 {
            self.put_two(words, cell, 0, at);
            return;
        }
        self.put_two(words, next, cell, at);
    }

    // Stores the letter at a node.
    fn put_letter(&mut self, words: &[u64], node: usize, letter: usize)
        requires { (letter < 256) × SomeLetter words.now node }
        ensures { (c : ℕ) → (x : Letter) → LetterAt words.now c node x
            → (self.new.table ≡ self.old.table) × (letters_in self.new ≡ with_letters (letters_in self.old) letter (x ∷ [])) }
    {
        let bare = unnamed(words, node);
        self.look[letter] = words[bare + 1];
        self.want[letter] = words[bare + 2];
        let head = words[bare];
        self.held[letter] = held_at(words, part3(head));
        self.put_links(words, part1(head), 4 * letter);
        self.put_links(words, part2(head), 4 * letter + 2);
    }

    // Stores a row.
    fn put_row(&mut self, row: usize, k: usize, l: usize, r: usize, u: usize)
        requires { row < 1024 }
        ensures { self.new ≡ with_row self.old row (row_code k l r u) }
    {
        self.table[row] = quad(k, l, r, u);
    }

    // Lays the expression at a node from a row and a letter on, as an operand of row `above`.
    pub(crate) fn lay(
        &mut self,
        words: &[u64],
        node: usize,
        row: usize,
        above: usize,
        letter: usize,
    ) -> Laid
        requires { SomeExp words.now node row letter }
        ensures { (c : ℕ) → (e : Exp) → ExpAt words.now c node row letter e → StoredIn row above letter e self.old self.new result }
    {
        let head = words[node];
        let k = part0(head);
        if is_letter(k) {
            self.put_letter(words, node, letter);
            self.put_row(row, NodeKind::Letter.number(), letter, 0, above);
            return Laid {
                row: row + 1,
                letter: letter + 1,
            };
        }
        let first = self.lay(words, part1(head), row + 1, row, letter);
        if k == NodeKind::Star.number() {
            self.put_row(row, NodeKind::Star.number(), row + 1, 0, above);
            return first;
        }
        let second = self.lay(words, part2(head), first.row, row, first.letter);
        self.put_row(row, k, row + 1, first.row, above);
        second
    }
}
