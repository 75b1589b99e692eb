// The test of a letter's wire literals for C, so that client/wires can look at what it is compiled to and run it: the function of the library
// `masks`, under its own name and with its own clause.

#![tactic(auto)]

ghost use Rattle.std.specs.Prelude.{◌≡◌};
ghost use Rattle.masks.specs.Wires.{passes};

#[unsafe(no_mangle)]
pub extern "C" fn passes(look: u64, want: u64, word: u64) -> bool
    ensures { result ≡ passes look want word }
{
    masks::passes(look, want, word)
}
