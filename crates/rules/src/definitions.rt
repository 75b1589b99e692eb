// Declarations of defines and productions: a name that must be new, what it stands for, and its cell among the words.
ghost use Rattle.std.specs.Prelude.{◌≡◌, List, ℕ, ◌+◌, ◌<◌, ◌≤◌, length};
ghost use Rattle.lexer.specs.Shown.{sign_number};
ghost use Rattle.lexer.specs.Tokens as token;
ghost use Rattle.lexer.specs.Tokens.{rule_words, token_at};
ghost use Rattle.meaning.specs.Expression.{Literal, Exp, as_production};
ghost use Rattle.meaning.specs.Reading.{define_name, statement};
ghost use Rattle.meaning.specs.Names.{a_define, a_production};
ghost use Rattle.rules.specs.Cells.{Declared as SomeNames};
ghost use Rattle.rules.specs.Reads.{placed};
ghost use Rattle.rules.specs.Conditions.{ConditionIs};
ghost use Rattle.rules.specs.Parts.{PartIs};
ghost use Rattle.rules.specs.Expressions.{Named};
ghost use Rattle.rules.specs.Misreads.{fault_in, at_in, or_in};
ghost use Rattle.rules.specs.Scopes.{Ready, told_declared, Declares};
ghost use Rattle.rules.specs.Defined.{BeginRead, DefineRead, CellWritten};

use super::declarations::{Declared, Scope, new_name};
use super::expression::{expression, no_literals};
use super::literals::{Condition, Literals, literal, more_literals};
use super::names::NameKind;
use super::parts::{Part, production_of};
use super::tokens::{Misread, sign};
use lexer::Sign;
use words::quad;

// A new name with the sign behind it, and where to read on.
#[derive(Drop)]
struct Beginning {
    at: usize,
    place: usize,
    size: usize,
}

// The new name that must stand here, and the sign behind it.
fn begun(
    text: &[u8],
    words: &[u64],
    scope: Scope,
    at: usize,
    wanted: Sign,
) -> Result<Beginning, Misread>
    requires { SomeNames text.now words.now scope.last }
    ensures { BeginRead text.now words.now scope at (sign_number wanted) (fault_in result) (at_in (λ b. b.at) result) (or_in (λ b. b.place) 0 result) (or_in (λ b. b.size) 0 result) }
{
    let name = new_name(text, words, scope, at, false, false)?;
    let next = sign(text, name.after, wanted)?;
    Ok(Beginning {
        at: next,
        place: name.place,
        size: name.after - name.place,
    })
}

// The cell of a define is written.
fn write_define(
    words: &mut [u64],
    free: usize,
    last: usize,
    place: usize,
    size: usize,
    q: Condition,
)
    requires { (free + 4 ≤ length words.old) × (length words.old ≤ 65535) × (last < 65536) × (place < 65536) × (size < 65536) × ((ls : List Literal) × ConditionIs words.old free q ls) }
    ensures { CellWritten words.old free free 4 last place size (List Literal) (ConditionIs words.old free q) a_define words.new }
{
    words[free] = quad(NameKind::Defined.number(), last, place, size);
    words[free + 1] = quad(usize::from(q.agrees), q.tests, q.link, q.held);
    words[free + 2] = q.look;
    words[free + 3] = q.want;
}

// The cell of a production is written.
fn write_production(
    words: &mut [u64],
    free: usize,
    last: usize,
    place: usize,
    size: usize,
    part: Part,
)
    requires { (free + 3 ≤ length words.old) × (length words.old ≤ 65535) × (last < 65536) × (place < 65536) × (size < 65536) × ((e : Exp) × PartIs words.old free part e) }
    ensures { CellWritten words.old free free 3 last place size Exp (PartIs words.old free part) a_production words.new }
{
    words[free] = quad(NameKind::Production.number(), last, place, size);
    words[free + 1] = quad(part.node, 0, 0, 0);
    words[free + 2] = quad(
        part.letters,
        usize::from(part.nullable),
        part.impossible,
        part.hollow,
    );
}

// The same for the production with a number, behind the node that a single letter gets: the cell's index.
fn write_numbered(
    words: &mut [u64],
    free: usize,
    last: usize,
    place: usize,
    size: usize,
    number: usize,
    part: Part,
) -> usize
    requires { (free + 4 ≤ length words.old) × (length words.old ≤ 65535) × (last < 65536) × (place < 65536) × (size < 65536) × (number < 65536) × ((e : Exp) × PartIs words.old free part e) }
    ensures { CellWritten words.old free result 3 last place size Exp (PartIs words.old free part) (λ e. a_production (as_production number e)) words.new }
{
    let made = production_of(words, free, number, part);
    let part = made.part;
    write_production(words, made.free, last, place, size, part);
    made.free
}

// The literals of a define, up to before `;`.
fn all_literals(
    text: &[u8],
    words: &mut [u64],
    last: usize,
    free: usize,
    at: usize,
) -> Result<Literals, Misread>
    requires { Named text.now words.old at free last }
    ensures { DefineRead text.now words.old at free last result words.new }
{
    let first = literal(text, words, last, free, at, no_literals(), 6)?;
    more_literals(text, words, last, first.free, first.at, first.condition, 6)
}

// What stands behind `define`.
pub(crate) fn define(
    text: &[u8],
    words: &mut [u64],
    scope: Scope,
    free: usize,
    at: usize,
) -> Result<Declared, Misread>
    requires { (S : List ℕ) × Ready text.now words.old S at free scope }
    ensures { (S : List ℕ) → Declares text.now define_name words.old S at free scope (told_declared free scope result) words.new S }
{
    let name = begun(text, words, scope, at, Sign::Equals)?;
    let l = all_literals(text, words, scope.last, free, name.at)?;
    let end = sign(text, l.at, Sign::Semicolon)?;
    let q = l.condition;
    write_define(words, l.free, scope.last, name.place, name.size, q);
    Ok(Declared {
        at: end,
        free: l.free + 4,
        scope: Scope {
            last: l.free,
            count: scope.count + 1,
            ..scope
        },
    })
}

// A production, whose name stands at `at`.
pub(crate) fn production(
    text: &[u8],
    words: &mut [u64],
    scope: Scope,
    free: usize,
    at: usize,
) -> Result<Declared, Misread>
    requires { ((S : List ℕ) × Ready text.now words.old S at free scope) × ((s : List ℕ) × (place : ℕ) × (after : ℕ) × (token_at rule_words text.now at ≡ placed (token.name s) place after)) }
    ensures { (S : List ℕ) → Declares text.now statement words.old S at free scope (told_declared free scope result) words.new S }
{
    let name = begun(text, words, scope, at, Sign::RightArrow)?;
    let e = expression(text, words, scope.last, free, name.at, 32)?;
    let end = sign(text, e.at, Sign::Semicolon)?;
    let part = e.part;
    let cell = write_numbered(
        words,
        e.free,
        scope.last,
        name.place,
        name.size,
        scope.count,
        part,
    );
    Ok(Declared {
        at: end,
        free: cell + 3,
        scope: Scope {
            last: cell,
            count: scope.count + 1,
            ..scope
        },
    })
}
