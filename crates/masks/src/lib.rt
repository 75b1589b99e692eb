// The wire literals of a letter as two words, the wires looked at and the values wanted there, and a third for the wires that
// must be as before (specs/Masks.antt); and the test of a word against two of them (specs/Wires.antt).
#![tactic(auto)]

ghost use Rattle.std.specs.Prelude.{◌≡◌};
ghost use Rattle.masks.specs.Masks.{compatible};
ghost use Rattle.masks.specs.Wires.{passes};

// Whether each wire looked at has the value wanted, for any three words. The exclusive or has a 1 at each wire that is not as wanted, and none of these may be looked at: no
// branch is needed. It is marked for C so that client/wires can look at what it is compiled to.
#[unsafe(no_mangle)]
pub extern "C" fn passes(look: u64, want: u64, word: u64) -> bool
    ensures { result ≡ passes look want word }
{
    (word ^ want) & look == 0
}

// Whether two letters want the same of the wires that both look at.
// four words and no two structs of a look and a want: the definition `compatible` and the table of a watch have them apart, and `passes` takes three words from C
pub fn compatible(look1: u64, want1: u64, look2: u64, want2: u64) -> bool
    ensures { result ≡ compatible look1 want1 look2 want2 }
{
    passes(look1 & look2, want2, want1)
}
