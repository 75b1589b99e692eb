// Prints calls and their answers.
use monitor::Fault;
use std::io;

// A call, and what it was answered with.
pub fn answer(rt: &impl Print, call: &str, answer: Result<(), Fault>) -> io::Result<()> {
    match answer {
        Ok(()) => println!(rt; "{call} ok"),
        Err(Fault::Bad(place)) => println!(rt; "{call} bad {place}"),
        Err(Fault::Refused(refusal)) => println!(rt; "{call} refused {}", refusal.number()),
    }
}
