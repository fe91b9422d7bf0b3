// Answers a session on standard input, in chunks, with no engine behind it.
#![tactic(auto)]

mod echo;
#[cfg(test)]
mod tests;

use echo::Echo;
use session::streaming::answer_all;
use std::io;

fn main(rt: HostRuntime) -> io::Result<()> {
    let mut echo = Echo::new(rt.alloc());
    answer_all::<_, _, _, 4096>(rt.alloc(), &mut echo, &mut rt.stdin(), &mut rt.stdout())
}
