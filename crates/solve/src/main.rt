// Reads a problem text on standard input and prints the lines that answer it.
#![tactic(auto)]

use offsets::entry::offsets_solve;
use std::io;
use std::io::{Read, Write};

fn main(rt: HostRuntime) -> io::Result<()> {
    let mut text = Vec::new(rt.alloc());
    rt.stdin().read_to_end(&mut text)?;
    let mut output = [0u8; 30127];
    let count = offsets_solve(text.as_slice(), 10_000, &mut output);
    rt.stdout().write_all(&output[0..count])
}
