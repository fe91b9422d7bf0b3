// Prints the read sheets of nodes: for each line of parameters and a node, what a mend of that node reads.
#![tactic(auto)]

mod asking;
mod printing;

use asking::ask;
use printing::{push_decline, push_sheet};
use std::io;
use std::io::{Read, Write};
use text::lines::Lines;

fn main(rt: HostRuntime) -> io::Result<()> {
    let mut input = Vec::new(rt.alloc());
    rt.stdin().read_to_end(&mut input)?;
    let mut out = Vec::new(rt.alloc());
    for line in Lines::of(input.as_slice()) {
        out.clear();
        match ask(line) {
            Ok(sheet) => push_sheet(&mut out, sheet)?,
            Err(fault) => push_decline(&mut out, fault)?,
        }
        rt.stdout().write_all(out.as_slice())?;
    }
    Ok(())
}
