// How many rows asking and leaving each row touches, laid out once for many ticks (specs/Counts.antt). A thread has one letter met
// at a time (F17), so what the letters met touch overlaps nowhere but with the start of their own thread, and can be added up.
#![tactic(auto)]

ghost use Rattle.std.specs.Prelude.{◌≡◌, cond, ◌&&◌, ◌+◌, ◌<◌, ◌≤◌, eqb};
ghost use Rattle.words.specs.Words.{part0};
ghost use Rattle.counts.specs.Counts.{cost, count_in, nullable_in, seq_cost, alt_cost, cost_of, row_cost, costs_down, begins_in, fresh, left_of_seq, right_of_seq, only_operand, body_of_star, operand_place, sibling, row_place, places_up, counts_of};

use rules::Watch;
use words::{RowKind, part0, part1, part2, part3, quad, word_at};

// Each row's place, a word of four numbers: what leaving it touches in its thread, and that without what starting the thread
// touches too; one more than the row of the first `@` whose thread is then asked, or 0; and twice the thread's key, its first
// letter, one more where starting the thread asks the row. And each row's cost: what asking it touches, twice, one more where it is
// nullable.
pub const PLACES: usize = 0;

pub const COSTS: usize = 1;

// ---- costs

// The cost of a row: 2 * touches, and 1 more if it is nullable.
// A word, and no struct of the two: the C interface lends words to hold it, and `cost` of specs/Counts.antt, on which the theorems on
// `counts_of` stand, is this number. So too a row's place.
fn cost(touches: usize, nullable: bool) -> u64
    requires { touches < 131072 }
    ensures { result ≡ cost touches nullable }
{
    2 * (touches as u64) + u64::from(nullable)
}

// How many rows asking a row of this cost touches.
pub fn count_in(cost: u64) -> usize
    ensures { result ≡ count_in cost }
{
    part0(cost) / 2
}

// Whether a row of this cost is nullable.
fn nullable_in(cost: u64) -> bool
    ensures { result ≡ nullable_in cost }
{
    part0(cost) % 2 != 0
}

// Of a `,`: the right operand is asked where the left one is nullable.
fn seq_cost(left: u64, right: u64) -> u64
    ensures { result ≡ seq_cost left right }
{
    if !nullable_in(left) {
        cost(1 + count_in(left), false)
    } else if !nullable_in(right) {
        cost(1 + count_in(left) + count_in(right), false)
    } else {
        cost(2 + count_in(left) + count_in(right), true)
    }
}

// Of a `||`: both are asked.
fn alt_cost(left: u64, right: u64) -> u64
    ensures { result ≡ alt_cost left right }
{
    let touches = count_in(left) + count_in(right);
    if nullable_in(left) || nullable_in(right) {
        cost(2 + touches, true)
    } else {
        cost(1 + touches, false)
    }
}

// By the row's word and the costs of its operands.
fn cost_of(word: u64, left: u64, right: u64) -> u64
    ensures { result ≡ cost_of word left right }
{
    match RowKind::of(word) {
        Some(RowKind::Letter) => cost(1, false),
        Some(RowKind::Sequence) => seq_cost(left, right),
        Some(RowKind::Alternative) => alt_cost(left, right),
        Some(RowKind::Star) => cost(2 + count_in(left), true),
        Some(RowKind::Pipe) => cost(1 + count_in(left), false),
        None => 0,
    }
}

// A row's cost, by those of the rows behind it.
fn row_cost(table: &[u64; 1024], costs: &[u64; 1024], row: usize) -> u64
    requires { row < 1024 }
    ensures { result ≡ row_cost table.now costs.now row }
{
    let word = table[row];
    let left = word_at(costs, part1(word));
    let right = word_at(costs, part2(word));
    cost_of(word, left, right)
}

// The costs of all rows, from the last on: operands stand behind their operator.
#[tactic(auto, using(crate::proofs::CountSteps::costs_next), unfolding(crate::specs::Counts::costs_down))]
fn costs_of(table: &[u64; 1024], rows: usize) -> [u64; 1024]
    requires { rows ≤ 1024 }
    ensures { result ≡ costs_down table.now rows rows }
{
    let mut costs = [0u64; 1024];
    for row in (0..rows).rev() {
        costs[row] = row_cost(table, &costs, row);
    }
    costs
}

// ---- places

// Whether starting the thread asks the row.
fn begins_in(place: u64) -> bool
    ensures { result ≡ begins_in place }
{
    part3(place) % 2 != 0
}

// 0 if starting the thread asks the row and the row is nullable, for then it is left already; else 1.
fn fresh(begins: bool, cost: u64) -> usize
    ensures { result ≡ fresh begins cost }
{
    if begins && nullable_in(cost) { 0 } else { 1 }
}

// What leaving the left operand of a `,` touches that starting the thread has not, without leaving the row above: itself, and what
// asking the other one touches.
fn left_rest(begins: bool, own: u64, other: u64) -> usize
    ensures { result ≡ fresh begins own + cond (begins && nullable_in own) 0 (count_in other) }
{
    if fresh(begins, own) == 0 {
        0
    } else {
        1 + count_in(other)
    }
}

// Of the left operand of a `,`: leaving it asks the other one, and where that is nullable leaves the row above.
fn left_of_seq(above: u64, own: u64, other: u64) -> u64
    ensures { result ≡ left_of_seq above own other }
{
    let whole = 1 + count_in(other);
    let rest = left_rest(begins_in(above), own, other);
    if nullable_in(other) {
        quad(
            whole + part0(above),
            rest + part1(above),
            part2(above),
            part3(above),
        )
    } else {
        quad(whole, rest, 0, part3(above))
    }
}

// Whether starting the thread asks the right operand.
fn right_begins(above: u64, other: u64) -> bool
    ensures { result ≡ (begins_in above && nullable_in other) }
{
    begins_in(above) && nullable_in(other)
}

// Of the right operand: leaving it leaves the row above.
fn right_of_seq(above: u64, own: u64, other: u64) -> u64
    ensures { result ≡ right_of_seq above own other }
{
    let begins = right_begins(above, other);
    let whole = 1 + part0(above);
    let rest = fresh(begins, own) + part1(above);
    let key = part3(above) / 2;
    quad(whole, rest, part2(above), 2 * key + usize::from(begins))
}

// Of an operand whose leaving is that of the row above, with the first `@` whose thread is then asked.
fn only_operand(above: u64, own: u64, chain: usize) -> u64
    ensures { result ≡ only_operand above own chain }
{
    let rest = fresh(begins_in(above), own) + part1(above);
    quad(1 + part0(above), rest, chain, part3(above))
}

// Of a star's body: leaving it asks it again, and leaves the star.
fn body_of_star(above: u64, own: u64) -> u64
    ensures { result ≡ body_of_star above own }
{
    let again = count_in(own);
    let whole = 1 + again + part0(above);
    if begins_in(above) {
        let rest = fresh(true, own) + part1(above);
        quad(whole, rest, part2(above), part3(above))
    } else {
        quad(whole, 1 + again + part1(above), part2(above), part3(above))
    }
}

// Of a row below another, by that one's word and place.
// Seven numbers, and no struct: they come together in one call alone, so a struct would be no plainer.
fn operand_place(
    word: u64,
    above: u64,
    own: u64,
    other: u64,
    up: usize,
    row: usize,
    key: usize,
) -> u64
    requires { (up < 1024) × (key ≤ 1024) }
    ensures { result ≡ operand_place word above own other up row key }
{
    let is_left = part1(word) == row;
    match RowKind::of(word) {
        Some(RowKind::Sequence) if is_left => left_of_seq(above, own, other),
        Some(RowKind::Sequence) => right_of_seq(above, own, other),
        Some(RowKind::Alternative) => only_operand(above, own, part2(above)),
        Some(RowKind::Star) => body_of_star(above, own),
        Some(RowKind::Pipe) if is_left => only_operand(above, own, up + 1),
        Some(RowKind::Pipe) => quad(1, fresh(true, own), 0, 2 * key + 1),
        Some(RowKind::Letter) | None => 0,
    }
}

// The other operand of a row, by its word.
fn sibling(word: u64, row: usize) -> usize
    ensures { result ≡ sibling word row }
{
    if part1(word) == row {
        part2(word)
    } else {
        part1(word)
    }
}

// A row's place, by those of the rows before it; `key` is its first letter.
fn row_place(
    table: &[u64; 1024],
    costs: &[u64; 1024],
    places: &[u64; 1024],
    key: usize,
    row: usize,
) -> u64
    requires { (row < 1024) × (key ≤ 1024) }
    ensures { result ≡ row_place table.now costs.now places.now key row }
{
    let own = costs[row];
    let up = part3(table[row]);
    if up == row {
        let whole = 1 + count_in(own);
        quad(whole, whole, 0, 0)
    } else if up < row {
        let word = table[up];
        let other = word_at(costs, sibling(word, row));
        operand_place(word, places[up], own, other, up, row, key)
    } else {
        0
    }
}

// How many letters stand up to a row with this word, by how many stand before it.
fn letters_with(letters: usize, word: u64) -> usize
    requires { letters < 1024 }
    ensures { result ≡ letters + cond (eqb (part0 word) 0) 1 0 }
{
    match RowKind::of(word) {
        Some(RowKind::Letter) => letters + 1,
        _ => letters,
    }
}

// The places of all rows. A row stands behind the row above it, so one pass is enough.
#[tactic(auto, unfolding(crate::specs::Counts::letters_before, crate::specs::Counts::places_up))]
fn places_of(table: &[u64; 1024], costs: &[u64; 1024], rows: usize) -> [u64; 1024]
    requires { rows ≤ 1024 }
    ensures { result ≡ places_up table.now costs.now rows }
{
    let mut places = [0u64; 1024];
    let mut letters: usize = 0;
    for row in 0..rows {
        places[row] = row_place(table, costs, &places, letters, row);
        letters = letters_with(letters, table[row]);
    }
    places
}

// The places and costs of a watch's rows, in the order of PLACES and COSTS.
// Two tables by number, and no struct of two: `counts_of` of specs/Counts.antt, which `sheet`'s Demands name, is a list of them.
pub fn counts_of(watch: &Watch) -> [[u64; 1024]; 2]
    ensures { result ≡ counts_of watch.now }
{
    let rows = watch.rows.min(1024);
    let costs = costs_of(&watch.table, rows);
    let places = places_of(&watch.table, &costs, rows);
    [places, costs]
}
