// What the program prints: a line for each case that differs, and one for each list of cases. What the system does not take is
// lost, and the program goes on.
use std::io;

pub fn differs(rt: &impl Print, list: &str, name: &[u8]) {
    let _ = print!(rt; "differs {list} ");
    let _ = rt.write_all(name);
    let _ = println!(rt; "");
}

pub fn damaged(rt: &impl Print, list: &str, at: usize) {
    let _ = println!(rt; "{list}: damaged case at byte {at}");
}

pub fn tally(rt: &impl Print, list: &str, cases: usize, differ: usize) {
    let _ = println!(rt; "{list}: {cases} cases, {differ} differ");
}

// A line on standard error.
pub fn complain(errors: &impl Print, text: &str) {
    let _ = println!(errors; "{text}");
}

// A line on standard error: what failed, and why.
pub fn fail(errors: &impl Print, what: &str, error: &io::Error) {
    let _ = println!(errors; "{what}: {error}");
}
