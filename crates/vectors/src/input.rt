// What the program reads.
ghost use Rattle.std.specs.Prelude.{◌≤◌, length};

use std::io::Read;

// Reads until the buffer is full, the input ends or a read fails: how many bytes there are. The program `linewatch` has the same
// function: a crate between the two would be longer than it.
pub fn read_full(input: &mut impl Read, buffer: &mut [u8]) -> usize
    ensures { result ≤ length buffer.new }
{
    let mut done: usize = 0;
    // a position by hand: a read gives as many bytes as it likes
    while done < buffer.len() {
        match input.read(&mut buffer[done..]) {
            Ok(0) | Err(_) => break,
            Ok(got) => done += got,
        }
    }
    done
}
