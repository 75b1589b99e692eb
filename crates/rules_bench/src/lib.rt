// Opening through C, for the benchmark: a refusal's number with the place, or 0 with both counts, in one word.
#![tactic(auto)]

ghost use Rattle.std.specs.Prelude.{◌≡◌};
ghost use Rattle.meaning.specs.Opening.{counts_of, open_text};
ghost use Rattle.rules.specs.Watches.{shown_outcome};
ghost use Rattle.rules_bench.specs.Packed.{packed, in_one_word};

use rules::{Counts, Refused};

// A number and two more, each below 65,536, in one word.
fn packed(number: u8, a: usize, b: usize) -> u64
    ensures { result ≡ packed number a b }
{
    (number as u64) * 4294967296 + ((a % 65536) as u64) * 65536 + (b % 65536) as u64
}

fn shown(outcome: Result<Counts, Refused>) -> u64
    ensures { result ≡ in_one_word (shown_outcome outcome) }
{
    match outcome {
        Ok(counts) => packed(0, counts.rows, counts.letters),
        Err(Refused::AtByte(why, place)) => packed(why.number(), place, 0),
        Err(Refused::AtLetter(why, monitor, letter)) => packed(why.number(), monitor, letter),
    }
}

#[unsafe(no_mangle)]
pub extern "C" fn rules_bench_open(text: &[u8]) -> u64
    ensures { result ≡ in_one_word (counts_of (open_text text.now)) }
{
    let start = rules::open(text);
    shown(start.outcome)
}
