// Reads records from standard input, and prints what they are answered with.
#![tactic(auto)]

use replay::respond;
use std::io;
use std::io::Read;

// The most bytes that are read.
const LARGEST: usize = 65536;

fn main(rt: HostRuntime) -> io::Result<()> {
    let alloc = rt.alloc();
    // With a place to spare, so that the end is found without more memory.
    let mut input = Vec::with_capacity(alloc, LARGEST + 1)?;
    rt.stdin().take(LARGEST as u64).read_to_end(&mut input)?;
    let text = respond(alloc, &input)?;
    rt.print(text)
}
