// How often each letter was met (docs/REFERENCE.md, W13; specs/Ticks.antt): a good tick adds one for each letter that it marks.
ghost use Rattle.std.specs.Prelude.{◌≡◌, cond, suc, ◌+◌, ◌<◌, ◌≤◌, ◌%◌, min, eqb};
ghost use Rattle.monitor.specs.Ticks.{if_marked, each_marked, one_more, count_met};

// A total, with one more if its letter is marked. It has 32 bits; no watch that calls gave comes near their end.
fn counted(total: u32, mark: u8) -> u32
    ensures { result ≡ cond (eqb mark 0) total (suc total % 4294967296) }
{
    if mark == 0 {
        return total;
    }
    total.wrapping_add(1)
}

// One letter. An unmarked one is stored as it was, since a branch to pass over it would cost more: nothing foretells it.
fn count_if(letter: usize, marks: &[u8; 288], totals: &mut [u32; 256])
    requires { letter < 256 }
    ensures { totals.new ≡ if_marked marks.now one_more letter totals.old }
{
    totals[letter] = counted(totals[letter], marks[letter]);
}

// Adds one to the total of each marked letter, of 256 at most.
pub fn count_met(letters: usize, marks: &[u8; 288], totals: &mut [u32; 256])
    ensures { totals.new ≡ count_met marks.now (min letters 256) totals.old }
{
    for letter in 0..letters.min(256) {
        count_if(letter, marks, totals);
    }
}
