// Which limits count each letter of the monitors: those whose production it came through (specs/Counted.antt).
ghost use Rattle.std.specs.Prelude.{◌≡◌, List, ℕ, ◌≤◌, length, replicate};
ghost use Rattle.std.proofs.lemmas.List.Edits.{sets};
ghost use Rattle.meaning.specs.Lists.{member, each, total};
ghost use Rattle.meaning.specs.Expression.{Letter, Exp, letters, size};
ghost use Rattle.rules.specs.Laying.{LetterAt, SomeLetter};
ghost use Rattle.rules.specs.Monitors.{MonitorsAre, FewLetters};
ghost use Rattle.rules.specs.Counted.{word_mask, masks_of, LettersAt, SomeLetters, MasksStored};

use super::parts::{NodeKind, is_letter};
use words::{part0, part1, part2};

// Whether the letter at a node came through the production with a number.
fn came_through(words: &[u64], node: usize, number: usize) -> bool
    requires { SomeLetter words.now node }
    ensures { (c : ℕ) → (x : Letter) → LetterAt words.now c node x → result ≡ member number x.through }
{
    let mut at = node;
    // no plainer: no index is counted, each node tells the next
    while part0(words[at]) == NodeKind::Named.number() {
        let head = words[at];
        if part2(head) == number {
            return true;
        }
        at = part1(head);
    }
    false
}

// The limits that count the letter at a node, by the words of the limits: bit i is for limit i.
fn mask_of(words: &[u64], node: usize, limits: &[u64]) -> u8
    requires { SomeLetter words.now node × (length limits.now ≤ 8) }
    ensures { (c : ℕ) → (x : Letter) → LetterAt words.now c node x → result ≡ word_mask limits.now x.through }
{
    let mut mask: usize = 0;
    for limit in limits.iter().rev() {
        mask = 2 * mask + usize::from(came_through(words, node, part0(*limit)));
    }
    mask as u8
}

// Stores the limits that count each letter of the expression at a node, from a letter on; the next letter.
fn count_letters(
    words: &[u64],
    node: usize,
    letter: usize,
    limits: &[u64],
    counted: &mut [u8; 256],
) -> usize
    requires { SomeLetters words.now node letter × (length limits.now ≤ 8) }
    ensures { (c : ℕ) → (e : Exp) → LettersAt words.now c node letter e
        → MasksStored limits.now letter e counted.old counted.new result }
{
    let head = words[node];
    let k = part0(head);
    if is_letter(k) {
        counted[letter] = mask_of(words, node, limits);
        return letter + 1;
    }
    let next = count_letters(words, part1(head), letter, limits, counted);
    if k == NodeKind::Star.number() {
        return next;
    }
    count_letters(words, part2(head), next, limits, counted)
}

// The same for the monitors whose productions have these cells, one behind the other.
pub(crate) fn counted_letters(words: &[u64], monitors: &[u16], limits: &[u64]) -> [u8; 256]
    requires { FewLetters words.now monitors.now (length monitors.now) × (length limits.now ≤ 8) }
    ensures { (c : ℕ) → (ms : List Exp) → MonitorsAre words.now c monitors.now (length monitors.now) ms → total size ms ≤ 256
        → result ≡ sets (replicate 256 0) 0 (each ms (λ m. masks_of limits.now (letters m))) }
{
    let mut counted = [0u8; 256];
    let mut letter: usize = 0;
    for cell in monitors {
        let node = part0(words[*cell as usize + 1]);
        letter = count_letters(words, node, letter, limits, &mut counted);
    }
    counted
}
