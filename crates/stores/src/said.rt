// What the calls of a store answered, in words.
use copying::CopyFault;
use field::NumberedField;
use std::io;
use store::{Shape, StoreFault, Unfit};

// A fault: the number of its cause, and its place.
// Kept: the words are this program's, and another program prints the number alone.
fn fault(rt: &HostRuntime, call: &str, f: StoreFault) -> io::Result<()> {
    let number = f.cause.number();
    let row = f.row;
    let node = f.node;
    println!(rt; "{call}: no {number} at {row} {node}")
}

// A check of rows, nodes and memory.
pub fn checked(
    rt: &HostRuntime,
    rows: usize,
    nodes: usize,
    r: Result<Shape, Unfit>,
) -> io::Result<()> {
    match r {
        Ok(_) => println!(rt; "check {rows} {nodes}: passed"),
        Err(f) => {
            let number = f.number();
            println!(rt; "check {rows} {nodes}: no {number}")
        }
    }
}

// What a call on the store answered, which `print` prints, or its fault.
fn told<T, P: FnOnce(T) -> io::Result<()>>(
    rt: &HostRuntime,
    call: &str,
    r: Result<T, StoreFault>,
    print: P,
) -> io::Result<()>
    requires { P.IsAlwaysCallable print }
{
    match r {
        Ok(x) => print(x),
        Err(f) => fault(rt, call, f),
    }
}

// A probe or a read.
pub fn answered<F: NumberedField>(
    rt: &HostRuntime,
    call: &str,
    r: Result<F, StoreFault>,
) -> io::Result<()> {
    told(rt, call, r, |x| {
        let number = x.number();
        println!(rt; "{call}: symbol {number}")
    })
}

// A meter.
pub fn metered(rt: &HostRuntime, call: &str, r: Result<u16, StoreFault>) -> io::Result<()> {
    told(rt, call, r, |n| println!(rt; "{call}: {n}"))
}

// A write.
pub fn placed(rt: &HostRuntime, call: &str, r: Result<(), StoreFault>) -> io::Result<()> {
    told(rt, call, r, |_| println!(rt; "{call}: done"))
}

// A clear or a refresh.
pub fn summed(rt: &HostRuntime, call: &str, r: Result<u32, StoreFault>) -> io::Result<()> {
    told(rt, call, r, |n| println!(rt; "{call}: {n} reads"))
}

// A copy of a node.
pub fn copied(rt: &HostRuntime, call: &str, r: Result<(), CopyFault>) -> io::Result<()> {
    match r {
        Ok(_) => println!(rt; "{call}: done"),
        Err(CopyFault::Source(f)) => {
            print!(rt; "source, ")?;
            fault(rt, call, f)
        }
        Err(CopyFault::Target(f)) => {
            print!(rt; "target, ")?;
            fault(rt, call, f)
        }
    }
}
