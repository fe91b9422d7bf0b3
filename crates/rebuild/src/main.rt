// Reads one row of decimal symbols from standard input, and writes how each symbol is rebuilt from the others.
#![tactic(auto)]

use rebuilding::transcript;
use std::io;
use std::io::{Read, Write};

fn main(rt: HostRuntime) -> io::Result<()> {
    let mut input = Vec::new(rt.alloc());
    rt.stdin().read_to_end(&mut input)?;
    let mut out = Vec::new(rt.alloc());
    transcript(input.as_slice(), &mut out)?;
    rt.stdout().write_all(out.as_slice())
}

#[cfg(test)]
mod tests;
