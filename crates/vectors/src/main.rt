// Prints the sheet of every shipped case, and of texts at the limits, and compares it with the right one. Started with an
// argument, it answers the cases that come on standard input instead.
#![tactic(auto)]

mod batch;
mod calls;
mod cases;
mod input;
mod limits;
mod sheets;
mod show;

use std::env::FillError;
use std::rt::Env;

// Whether the program was started with an argument, however long it is.
fn has_argument(rt: &impl Env) -> bool {
    match rt.arg(1, &mut []) {
        Ok(_) | Err(FillError::TooLong) => true,
        Err(FillError::NotPresent) => false,
    }
}

fn main(rt: HostRuntime) {
    let errors = rt.stderr();
    if has_argument(&rt) {
        batch::run(&rt, &errors);
        return;
    }
    cases::run(&rt, &errors, "edge.bin");
    cases::run(&rt, &errors, "boundary.bin");
    cases::run(&rt, &errors, "random.bin");
    limits::run(&rt);
}
