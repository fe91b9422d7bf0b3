// Answers the session on standard input, line by line: it only moves bytes.
#![tactic(auto)]

use desk::state::Desk;
use session::streaming::answer_all;
use std::io;

fn main(rt: HostRuntime) -> io::Result<()> {
    let mut desk = Desk::new(rt.alloc());
    answer_all::<_, _, _, 65536>(rt.alloc(), &mut desk, &mut rt.stdin(), &mut rt.stdout())
}
