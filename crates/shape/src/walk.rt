// The walk over the rows of a monitor that makes of each row what its operands come to (specs/Walk.antt), whatever that is.

ghost use Rattle.std.specs.Prelude.{◌≡◌, ℕ};
ghost use Rattle.words.specs.Words.{part0};
ghost use Rattle.shape.specs.Walk.{kinds, lefts, rights, CountsAs, by_operator, walk_at};

use words::{RowKind, part1, part2, word_at};

// What a part comes to, for up to 64 letters at a time. What it says of one of them is made of what its operands say of it.
pub(crate) trait Summary: Copy {
    ghost One: { Type 0 };

    ghost of: { ℕ → Self → One };

    ghost nothing_of: { One };

    ghost seq_of: { One → One → One };

    ghost alt_of: { One → One → One };

    ghost star_of: { One → One };

    ghost pipe_of: { One → One → One };

    // No letter.
    fn nothing() -> Self
        ensures { (x : ℕ) → of x result ≡ nothing_of };

    // `e , f`
    fn seq(self, f: Self) -> Self
        ensures { (x : ℕ) → of x result ≡ seq_of (of x self) (of x f) };

    // `e || f`
    fn alt(self, f: Self) -> Self
        ensures { (x : ℕ) → of x result ≡ alt_of (of x self) (of x f) };

    // `e*`
    fn star(self) -> Self
        ensures { (x : ℕ) → of x result ≡ star_of (of x self) };

    // `e @ f`: f is a thread.
    fn pipe(self, f: Self) -> Self
        ensures { (x : ℕ) → of x result ≡ pipe_of (of x self) (of x f) };
}

// What the row with this word is. One of no kind counts as an `@`.
fn kind_of(word: u64) -> RowKind
    ensures { CountsAs result (part0 word) }
{
    RowKind::of(word).unwrap_or(RowKind::Pipe)
}

// What a row comes to, by what each letter does. `fuel` bounds how deep the walk goes.
pub(crate) fn walk<S: Summary, L: Fn(usize) -> S>(
    table: &[u64],
    letter: &L,
    fuel: usize,
    row: usize,
) -> S
    requires { L.IsAlwaysCallable letter.now }
    ensures { (x : ℕ) (own : ℕ → S.One) → ((a : ℕ) (s : S) → L.post letter.now a s → S.of x s ≡ own a) → S.of x result ≡ walk_at (kinds table.now) (lefts table.now) (rights table.now) S.nothing_of own S.star_of (λ k e f. by_operator k (S.seq_of e f) (S.alt_of e f) (S.pipe_of e f)) fuel row }
{
    if fuel == 0 {
        return S::nothing();
    }
    let head = word_at(table, row);
    let left = part1(head);
    let right = part2(head);
    let below = fuel - 1;
    let kind = kind_of(head);
    if kind == RowKind::Letter {
        return letter(left);
    }
    let e = walk(table, letter, below, left);
    if kind == RowKind::Star {
        return e.star();
    }
    let f = walk(table, letter, below, right);
    match kind {
        RowKind::Sequence => e.seq(f),
        RowKind::Alternative => e.alt(f),
        _ => e.pipe(f),
    }
}
