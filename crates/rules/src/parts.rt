// Expressions as they are read: each is a node among the words, with what rules 8, 9 and 10 ask of it (specs/Parts.antt).
ghost use Rattle.std.specs.Prelude.{◌≡◌, cond, ℕ, ◌+◌, ◌<◌, ◌≤◌, length};
ghost use Rattle.std.proofs.Math.Option.{Option, none, some};
ghost use Rattle.meaning.specs.Expression.{Exp};
ghost use Rattle.meaning.specs.Shape.{nullable};
ghost use Rattle.meaning.specs.Summary.{counted, hollow_at};
ghost use Rattle.rules.specs.Cells.{letter_kind, coded, ProductionAt};
ghost use Rattle.rules.specs.Parts.{present, Summed, PartIs, OptionIs, Within, SumOf, Later, op_of, operator_number, node_number, JoinMade, StarMade, ProductionMade, LetterMade};

use super::literals::Condition;
use words::{part0, part1, part2, part3, quad};

// What a node is.
#[derive(Clone, Copy, Debug, PartialEq, Eq)]
pub(crate) enum NodeKind {
    Letter,
    Joined(Operator),
    Star,
    // Above a letter's node, for a production that the letter came through.
    Named,
}

// An operator between two parts.
#[derive(Clone, Copy, Debug, PartialEq, Eq)]
pub(crate) enum Operator {
    // `,`
    Sequence,
    // `||`
    Choice,
    // `@`
    Pipe,
}

impl NodeKind {
    // The number that names the kind in a node's first word.
    pub(crate) fn number(self) -> usize
        ensures { result ≡ node_number self }
    {
        match self {
            NodeKind::Letter => 0,
            NodeKind::Joined(operator) => operator.number(),
            NodeKind::Star => 3,
            NodeKind::Named => 5,
        }
    }
}

impl Operator {
    // The number that names the operator in a node's first word.
    fn number(self) -> usize
        ensures { result ≡ operator_number self }
    {
        match self {
            Operator::Sequence => 1,
            Operator::Choice => 2,
            Operator::Pipe => 4,
        }
    }
}

// An expression that was read: its node among the words, its letters, counted up to 257, whether it is
// nullable, and the first letter at fault for rules 9 and 10: 0 for none, else 1 more than the letter, counted likewise.
// no plainer as Option: both stand so in a production's cell, four numbers to a word
#[derive(Clone, Copy)]
pub(crate) struct Part {
    pub(crate) node: usize,
    pub(crate) letters: usize,
    pub(crate) nullable: bool,
    pub(crate) impossible: usize,
    pub(crate) hollow: usize,
}

// A part, and where the words go on.
#[derive(Drop)]
pub(crate) struct Made {
    pub(crate) free: usize,
    pub(crate) part: Part,
}

// The letters of two parts.
fn letters_of_two(left: usize, right: usize) -> usize
    requires { (left ≤ 257) × (right ≤ 257) }
    ensures { (j k : ℕ) → left ≡ counted j → right ≡ counted k → result ≡ counted (j + k) }
{
    (left + right).min(257)
}

// The letter at fault in the first of two parts, else in the second, behind the first one's letters.
fn or_later(first: usize, letters: usize, second: usize) -> usize
    requires { (letters ≤ 257) × (second ≤ 258) }
    ensures { Later first letters second result }
{
    if first != 0 {
        return first;
    }
    if second == 0 {
        return 0;
    }
    (letters + second).min(258)
}

// The letter at fault in a part that may not be nullable.
fn unless_nullable(nullable: bool, hollow: usize) -> usize
    requires { hollow ≤ 258 }
    ensures { (result ≤ 258) × ((o : Option ℕ) → hollow ≡ coded o → result ≡ coded (cond nullable (some 0) o)) }
{
    if nullable {
        return 1;
    }
    hollow
}

// Whether two parts with an operator between them are nullable.
fn nullable_two(operator: Operator, left: bool, right: bool) -> bool
    ensures { (e f : Exp) → left ≡ nullable e → right ≡ nullable f → result ≡ nullable (op_of (operator_number operator) e f) }
{
    match operator {
        Operator::Sequence => left & right,
        Operator::Choice => left | right,
        Operator::Pipe => false,
    }
}

// The letter at fault for rule 10 in two parts with an operator between them.
fn hollow_two(operator: Operator, left: Part, right: Part) -> usize
    requires { Within left × Within right }
    ensures { (e f : Exp) → Summed left e → Summed right f → result ≡ coded (hollow_at (op_of (operator_number operator) e f)) }
{
    if operator != Operator::Pipe {
        return or_later(left.hollow, left.letters, right.hollow);
    }
    let first = unless_nullable(left.nullable, left.hollow);
    let second = unless_nullable(right.nullable, right.hollow);
    or_later(first, left.letters, second)
}

// Two parts with an operator between them, whose node is `node`.
fn two(operator: Operator, node: usize, left: Part, right: Part) -> Part
    requires { Within left × Within right }
    ensures { SumOf (operator_number operator) left right node result }
{
    Part {
        node,
        letters: letters_of_two(left.letters, right.letters),
        nullable: nullable_two(operator, left.nullable, right.nullable),
        impossible: or_later(left.impossible, left.letters, right.impossible),
        hollow: hollow_two(operator, left, right),
    }
}

// What stands before an operator, if anything does, and what stands behind it.
pub(crate) fn join(
    words: &mut [u64],
    free: usize,
    operator: Operator,
    before: Option<Part>,
    right: Part,
) -> Made
    requires { (free + present before ≤ length words.old) × (length words.old ≤ 65535) × ((o : Option Exp) × OptionIs words.old free before o) × ((e : Exp) × PartIs words.old free right e) }
    ensures { JoinMade words.old free (operator_number operator) before right words.new result.free result.part }
{
    let Some(left) = before else {
        return Made { free, part: right };
    };
    words[free] = quad(
        NodeKind::Joined(operator).number(),
        left.node,
        right.node,
        0,
    );
    Made {
        free: free + 1,
        part: two(operator, free, left, right),
    }
}

// A part with a star behind it.
pub(crate) fn starred(words: &mut [u64], free: usize, part: Part) -> Made
    requires { (free + 1 ≤ length words.old) × (length words.old ≤ 65535) × ((e : Exp) × PartIs words.old free part e) }
    ensures { StarMade words.old free part words.new result.free result.part }
{
    words[free] = quad(NodeKind::Star.number(), part.node, 0, 0);
    Made {
        free: free + 1,
        part: Part {
            node: free,
            nullable: true,
            hollow: unless_nullable(part.nullable, part.hollow),
            ..part
        },
    }
}

// The letter at fault for rule 9 in a letter.
fn impossible_letter(agrees: bool) -> usize
    ensures { result ≡ coded (cond agrees none (some 0)) }
{
    usize::from(!agrees)
}

// A letter of a condition, and of the writes whose last link is `link`.
pub(crate) fn letter_part(words: &mut [u64], free: usize, q: Condition, link: usize) -> Made
    requires { (free + 3 ≤ length words.old) × (length words.old ≤ 65535) × (1 ≤ free) × (q.link < free) × (link < free) × (q.held < free) }
    ensures { LetterMade words.old free q link words.new result.free result.part }
{
    words[free] = quad(NodeKind::Letter.number(), q.link, link, q.held);
    words[free + 1] = q.look;
    words[free + 2] = q.want;
    Made {
        free: free + 3,
        part: Part {
            node: free,
            letters: 1,
            nullable: false,
            impossible: impossible_letter(q.agrees),
            hollow: 0,
        },
    }
}

// Whether a node of this kind is a letter's, or stands above one.
pub(crate) fn is_letter(kind: usize) -> bool
    ensures { result ≡ letter_kind kind }
{
    (kind == NodeKind::Letter.number()) | (kind == NodeKind::Named.number())
}

// A part as the expression of the production with a number, which a single letter has come through then.
pub(crate) fn production_of(words: &mut [u64], free: usize, number: usize, part: Part) -> Made
    requires { (free + 1 ≤ length words.old) × (length words.old ≤ 65535) × (number < 65536) × ((e : Exp) × PartIs words.old free part e) }
    ensures { ProductionMade words.old free number part words.new result.free result.part }
{
    let node = part.node;
    if is_letter(part0(words[node])) {
        words[free] = quad(NodeKind::Named.number(), node, number, 0);
        return Made {
            free: free + 1,
            part: Part { node: free, ..part },
        };
    }
    Made { free, part }
}

// The expression of a production, whose cell is `cell`.
pub(crate) fn production_part(words: &[u64], cell: usize) -> Part
    requires { (c : ℕ) × (e : Exp) × (c ≤ length words.now) × ProductionAt words.now c cell e }
    ensures { (c : ℕ) → (e : Exp) → ProductionAt words.now c cell e → PartIs words.now c result e }
{
    let what = words[cell + 2];
    Part {
        node: part0(words[cell + 1]),
        letters: part0(what),
        nullable: part1(what) == 1,
        impossible: part2(what),
        hollow: part3(what),
    }
}
