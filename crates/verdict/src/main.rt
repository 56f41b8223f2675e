// Reads a table text from standard input, and writes the report on it to standard output.
#![tactic(auto)]

use std::io;
use std::io::{Read, Write};

// One byte more than the longest text tells that the input is too long. `fixing` reads as this program does: a library
// does not read, and a crate for these lines would be longer.
const ENOUGH: u64 = text::LONGEST as u64 + 1;

fn main(rt: HostRuntime) -> io::Result<()> {
    let mut text = Vec::new(rt.alloc());
    rt.stdin().take(ENOUGH).read_to_end(&mut text)?;
    // A list is lent and the number of bytes answered, as C has the call.
    let mut out = [0u8; text::LONGEST];
    if let Ok(written) = report::report(&text, &mut out) {
        rt.stdout().write_all(&out[0..written])?;
    }
    Ok(())
}
