// Answers many texts in one run: each line of standard input is a text, two hexadecimal digits a byte.
#![tactic(auto)]

use offsets::entry::offsets_solve;
use std::io;
use std::io::{Read, Write};
use wire::bytes::byte_at;

fn answer(rt: &HostRuntime, line: &[u8]) -> io::Result<()> {
    let text: Vec<u8> = line
        .chunks_exact(2)
        .map(|digits| byte_at(digits, 0))
        .collect(rt.alloc())?;
    let mut output = [0u8; 30127];
    let count = offsets_solve(text.as_slice(), 10_000, &mut output);
    rt.stdout().write_all(&output[0..count])
}

fn main(rt: HostRuntime) -> io::Result<()> {
    let mut input = Vec::new(rt.alloc());
    rt.stdin().read_to_end(&mut input)?;
    for line in input.split_inclusive(|b| *b == b'\n') {
        // what stands after the last line feed is no text
        if let [text @ .., b'\n'] = line {
            answer(&rt, text)?;
        }
    }
    Ok(())
}
