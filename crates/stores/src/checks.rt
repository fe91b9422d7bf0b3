// Every way in which rows, nodes and memory do not make a store of 12 places, and one in which they do.
use crate::said::checked;
use std::io;
use store::{Shape, Unfit};

// Each check of a store's memory.
pub fn checks<C: Fn(usize, usize) -> Result<Shape, Unfit>>(
    rt: &HostRuntime,
    check: C,
) -> io::Result<()>
    requires { C.IsAlwaysCallable check }
{
    for (rows, nodes) in [(0, 4), (33, 1), (3, 0), (1, 94), (4, 4), (3, 4)] {
        checked(rt, rows, nodes, check(rows, nodes))?;
    }
    Ok(())
}
