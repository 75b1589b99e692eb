// Whole traces for the benchmark, which links this crate's static library: a count, or 0 for a
// refusal.
#![tactic(auto)]

ghost use Rattle.std.specs.Prelude.{◌≡◌};
ghost use Rattle.trace.specs.Whole.{lend, lend_answer, number_or_zero, read_trace, write_trace};

#[unsafe(no_mangle)]
pub extern "C" fn bench_read_trace(records: &[u8], words: &mut [u64]) -> usize
    ensures { (result ≡ number_or_zero (lend_answer (read_trace records.now) words.old).answer) × (words.new ≡ (lend_answer (read_trace records.now) words.old).list) }
{
    trace::or_zero(trace::read_trace(records, words))
}

#[unsafe(no_mangle)]
pub extern "C" fn bench_write_trace(words: &[u64], records: &mut [u8]) -> usize
    ensures { (result ≡ number_or_zero (lend (write_trace words.now) records.old).answer) × (records.new ≡ (lend (write_trace words.now) records.old).list) }
{
    trace::or_zero(trace::write_trace(words, records))
}
