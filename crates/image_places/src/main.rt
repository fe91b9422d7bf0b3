// Prints what each place of a card image means: its meter and what probe answers, before and after its node is refreshed.
// The input is the letter d for decimal symbols or b for byte symbols, one byte for the rows, one for the nodes, and the memory.
#![tactic(auto)]

use byte::Byte;
use field::{Decimal, NumberedField};
use image::CardImage;
use std::io;
use std::io::Read;
use store::{Store, StoreFault};

// A symbol's number, or that of the decline and an exclamation mark.
fn answer<F: NumberedField>(rt: &HostRuntime, r: Result<F, StoreFault>) -> io::Result<()> {
    match r {
        Ok(x) => {
            let number = x.number();
            print!(rt; " {number}")
        }
        Err(f) => {
            let number = f.cause.number();
            print!(rt; " !{number}")
        }
    }
}

// A place: its row and node, its meter, and what probe answers.
fn place<F: NumberedField, S: Store<F>>(
    rt: &HostRuntime,
    s: &S,
    row: usize,
    node: usize,
) -> io::Result<()> {
    print!(rt; "{row} {node}")?;
    match s.meter(row, node) {
        Ok(meter) => print!(rt; " {meter}")?,
        Err(_) => print!(rt; " off")?,
    }
    answer(rt, s.probe(row, node))?;
    println!(rt)
}

// Each place of a node.
fn places<F: NumberedField, S: Store<F>>(rt: &HostRuntime, s: &S, node: usize) -> io::Result<()> {
    for row in 0..s.rows() {
        place(rt, s, row, node)?;
    }
    Ok(())
}

// Each node, before and after a refresh.
fn nodes<F: NumberedField, S: Store<F>>(rt: &HostRuntime, s: &mut S) -> io::Result<()> {
    for node in 0..s.nodes() {
        places(rt, s, node)?;
        match s.refresh(node) {
            Ok(sum) => println!(rt; "refresh {node} {sum}")?,
            Err(_) => println!(rt; "refresh {node} off")?,
        }
        places(rt, s, node)?;
    }
    Ok(())
}

// The image that lies in the memory.
fn image<F: NumberedField>(
    rt: &HostRuntime,
    memory: &mut [u8],
    rows: usize,
    columns: usize,
) -> io::Result<()> {
    match CardImage::<F>::check(memory, rows, columns) {
        Ok(shape) => {
            let mut image = CardImage::<F>::open(memory, shape);
            nodes(rt, &mut image)
        }
        Err(f) => {
            let number = f.number();
            println!(rt; "no {number}")
        }
    }
}

fn main(rt: HostRuntime) -> io::Result<()> {
    let mut input = Vec::new(rt.alloc());
    rt.stdin().read_to_end(&mut input)?;
    let [letter, rows, columns, memory @ ..] = input.as_mut_slice() else {
        return println!(rt; "no image");
    };
    let rows = usize::from(*rows);
    let columns = usize::from(*columns);
    match *letter {
        b'd' => image::<Decimal>(&rt, memory, rows, columns),
        _ => image::<Byte>(&rt, memory, rows, columns),
    }
}
