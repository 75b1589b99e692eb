// Declarations of wires and stores: a name that must be new, its width, and its cell among the words.
ghost use Rattle.std.specs.Prelude.{List, ℕ, ◌+◌, ◌<◌, ◌≤◌, length};
ghost use Rattle.lexer.specs.Shown.{sign_number};
ghost use Rattle.meaning.specs.Reading.{input_name, store_name};
ghost use Rattle.rules.specs.Cells.{Declared as SomeNames};
ghost use Rattle.rules.specs.NamesFound.{name_number};
ghost use Rattle.rules.specs.Misreads.{fault_in, at_in, or_in};
ghost use Rattle.rules.specs.Scopes.{Ready, told_declared, Declares, NameRead, NameWritten, WidthRead};

use super::literals::largest;
use super::names::{NameKind, find};
use super::tokens::{Misread, number_to, see, sign, to_zero};
use lexer::{Kind, Sign};
use refusals::Refusal;
use words::quad;

// What has been declared: the cell of the last name, how many names there are, the wires that are taken, the stores, and the
// limits.
#[derive(Clone, Copy)]
pub(crate) struct Scope {
    pub(crate) last: usize,
    pub(crate) count: usize,
    pub(crate) wires: usize,
    pub(crate) stores: usize,
    pub(crate) limits: usize,
}

// A declaration more, and where to read on.
#[derive(Drop)]
pub(crate) struct Declared {
    pub(crate) at: usize,
    pub(crate) free: usize,
    pub(crate) scope: Scope,
}

// A name that is not declared, from its first byte to behind its last.
#[derive(Drop)]
pub(crate) struct NewName {
    pub(crate) place: usize,
    pub(crate) after: usize,
}

// The new name that must stand here. `wireless`: no wire is left for it; `full`: there is no room for its kind.
pub(crate) fn new_name(
    text: &[u8],
    words: &[u64],
    scope: Scope,
    at: usize,
    wireless: bool,
    full: bool,
) -> Result<NewName, Misread>
    requires { SomeNames text.now words.now scope.last }
    ensures { NameRead text.now words.now scope at wireless full (fault_in result) (at_in (λ n. n.place) result) (or_in (λ n. n.after) 0 result) }
{
    let t = see(text, at);
    if t.kind != Kind::Name {
        return Err(Misread::misplaced(t));
    }
    if find(text, words, scope.last, t.place, t.after).is_some() {
        return Err(Misread::refused(t, Refusal::Twice));
    }
    if wireless {
        return Err(Misread::refused(t, Refusal::Oversize));
    }
    if full || 128 <= scope.count {
        return Err(Misread::refused(t, Refusal::Crowded));
    }
    Ok(NewName {
        place: t.place,
        after: t.after,
    })
}

// The cell of a wire or a store is written.
fn write_name(
    words: &mut [u64],
    free: usize,
    kind: NameKind,
    last: usize,
    place: usize,
    size: usize,
    a: usize,
    b: usize,
)
    requires { (free + 2 ≤ length words.old) × (last < 65536) × (place < 65536) × (size < 65536) × (a < 65536) × (b < 65536) }
    ensures { NameWritten words.old free (name_number kind) last place size a b words.new }
{
    words[free] = quad(kind.number(), last, place, size);
    words[free + 1] = quad(a, b, 0, 0);
}

// A width and where to read on.
#[derive(Drop)]
struct Width {
    at: usize,
    width: usize,
}

// A sign, or `[h:0]` and then the sign: a width of 1, or of h + 1, which is at most `most`.
fn width_to(text: &[u8], at: usize, wanted: Sign, most: usize) -> Result<Width, Misread>
    requires { (1 ≤ most) × (most ≤ 64) }
    ensures { WidthRead text.now at (sign_number wanted) most (fault_in result) (at_in (λ w. w.at) result) (or_in (λ w. w.width) 1 result) }
{
    let t = see(text, at);
    if t.kind == Kind::Sign(wanted) {
        return Ok(Width {
            at: t.after,
            width: 1,
        });
    }
    if t.kind != Kind::Sign(Sign::LeftBracket) {
        return Err(Misread::misplaced(t));
    }
    let high = number_to(text, t.after, (most - 1) as u64)?;
    let zero = to_zero(text, high.after)?;
    let end = sign(text, zero, wanted)?;
    Ok(Width {
        at: end,
        width: high.value as usize + 1,
    })
}

// What stands behind `input`.
pub(crate) fn input(
    text: &[u8],
    words: &mut [u64],
    scope: Scope,
    free: usize,
    at: usize,
) -> Result<Declared, Misread>
    requires { (S : List ℕ) × Ready text.now words.old S at free scope }
    ensures { (S : List ℕ) → Declares text.now input_name words.old S at free scope (told_declared free scope result) words.new S }
{
    let name = new_name(text, words, scope, at, 64 <= scope.wires, false)?;
    let wide = width_to(text, name.after, Sign::Semicolon, 64 - scope.wires)?;
    write_name(
        words,
        free,
        NameKind::Wire,
        scope.last,
        name.place,
        name.after - name.place,
        scope.wires,
        wide.width,
    );
    Ok(Declared {
        at: wide.at,
        free: free + 2,
        scope: Scope {
            last: free,
            count: scope.count + 1,
            wires: scope.wires + wide.width,
            ..scope
        },
    })
}

// What stands behind `internal`. The store's first value goes behind those that there are.
pub(crate) fn store(
    text: &[u8],
    words: &mut [u64],
    kept: &mut [u64; 24],
    scope: Scope,
    free: usize,
    at: usize,
) -> Result<Declared, Misread>
    requires { Ready text.now words.old kept.old at free scope }
    ensures { Declares text.now store_name words.old kept.old at free scope (told_declared free scope result) words.new kept.new }
{
    let stores = scope.stores;
    let name = new_name(text, words, scope, at, false, 16 <= stores)?;
    let wide = width_to(text, name.after, Sign::Equals, 64)?;
    let first = number_to(text, wide.at, largest(wide.width))?;
    let end = sign(text, first.after, Sign::Semicolon)?;
    kept[stores] = first.value;
    write_name(
        words,
        free,
        NameKind::Store,
        scope.last,
        name.place,
        name.after - name.place,
        stores,
        wide.width,
    );
    Ok(Declared {
        at: end,
        free: free + 2,
        scope: Scope {
            last: free,
            count: scope.count + 1,
            stores: stores + 1,
            ..scope
        },
    })
}
