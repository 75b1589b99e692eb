// The lexer as a function on bytes and numbers, which the benchmark calls from Rust: a sum over all tokens of a text.
#![tactic(auto)]

ghost use Rattle.std.specs.Prelude.{◌≡◌, []};
ghost use Rattle.lexer.specs.Tokens.{goes_on, rule_words, tokens};
ghost use Rattle.lexer.specs.Shown.{word_shown, kind_shown};
ghost use Rattle.lexer_bench.specs.Checksum.{word_weight, weight, bare, plus, checksum};

use lexer::{Kind, Token, Word};

// What a token weighs, whichever bytes it has.
fn weigh_word(w: Word) -> u64
    ensures { result ≡ word_weight (word_shown w) }
{
    match w {
        Word::Input => 2,
        Word::Internal => 3,
        Word::Define => 4,
        Word::Monitor => 5,
        Word::Past => 8,
        Word::Limit => 9,
        Word::To => 10,
        Word::In => 11,
    }
}

// What a token weighs, by its kind.
// no switch on which step to run, but a `match` on an enum
fn weigh(k: Kind) -> u64
    ensures { result ≡ weight (kind_shown [] k) }
{
    match k {
        Kind::Name => 1,
        Kind::Word(w) => weigh_word(w),
        Kind::Number(n) => n,
        Kind::Sign(sign) => u64::from(sign.number()),
        Kind::End => 6,
        Kind::Knot => 7,
    }
}

// Whether a token may follow.
fn goes_on(k: Kind) -> bool
    ensures { result ≡ goes_on (kind_shown [] k) }
{
    !matches!(k, Kind::End | Kind::Knot)
}

fn add(sum: u64, t: Token) -> u64
    ensures { result ≡ plus sum (bare t) }
{
    sum.wrapping_add(weigh(t.kind))
        .wrapping_add(t.place as u64)
        .wrapping_add(t.after as u64)
}

#[unsafe(no_mangle)]
pub extern "C" fn lexer_bench_checksum(text: &[u8]) -> u64
    ensures { result ≡ checksum 0 (tokens rule_words text.now) }
{
    let mut at = 0;
    let mut sum: u64 = 0;
    // no plainer as a `for`: no index is counted, each token tells where the next is looked for
    loop {
        let t = lexer::token_at(lexer::rule_words(), text, at);
        sum = add(sum, t);
        if !goes_on(t.kind) {
            return sum;
        }
        at = t.after;
    }
}
