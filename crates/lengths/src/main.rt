// The entry point at output lengths where one place more or less matters, and at small budgets: the count and the lines.
#![tactic(auto)]

use offsets::entry::offsets_solve;
use std::io;
use std::io::Write;

// One setting from 0 to 40 that leaves 1 divided by 2, and lies not above 36: eighteen regions.
const TEXT: &[u8] = b"01010000000000000028\n06000000000200000001\n02000000000048\n";

fn answer(rt: &HostRuntime, output: &mut [u8], budget: u32) -> io::Result<()> {
    let size = output.len();
    let count = offsets_solve(TEXT, budget, output);
    println!(rt; "length {size}, budget {budget}: {count} bytes")?;
    rt.stdout().write_all(&output[0..count])
}

fn answer_at(rt: &HostRuntime, size: usize, budget: u32) -> io::Result<()> {
    let mut output = [46u8; 30127];
    match output.get_mut(..size) {
        Some(output) => answer(rt, output, budget),
        None => Ok(()),
    }
}

fn main(rt: HostRuntime) -> io::Result<()> {
    for size in [0usize, 1896, 1897, 3778, 3779, 30126, 30127] {
        answer_at(&rt, size, 10_000)?;
    }
    for budget in [0u32, 1, 7, 35, 4_294_967_295] {
        answer_at(&rt, 30127, budget)?;
    }
    Ok(())
}
