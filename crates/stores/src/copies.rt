// Copies of a node of a bank of two rows to a card image.
use crate::said::{answered, copied, metered};
use bank::{Bank, Cell};
use copying::copy_node;
use field::{Decimal, NumberedField};
use image::CardImage;
use std::io;
use store::Store;

// A copy of a node with a blank place, one to a node that the target lacks, and one that is done.
fn three<F: NumberedField, P: Store<F>, Q: Store<F>>(
    rt: &HostRuntime,
    from: &mut P,
    to: &mut Q,
    x: F,
    y: F,
) -> io::Result<()> {
    let _ = from.write(0, 1, x);
    copied(rt, "copy 1 to 0", copy_node(from, 1, to, 0))?;
    let _ = from.write(1, 1, y);
    copied(rt, "copy 1 to 9", copy_node(from, 1, to, 9))?;
    copied(rt, "copy 1 to 0", copy_node(from, 1, to, 0))
}

fn found<F: NumberedField, P: Store<F>, Q: Store<F>>(
    rt: &HostRuntime,
    from: &P,
    to: &Q,
) -> io::Result<()> {
    answered(rt, "target, probe 0 0", to.probe(0, 0))?;
    answered(rt, "target, probe 1 0", to.probe(1, 0))?;
    metered(rt, "source, meter 0 1", from.meter(0, 1))?;
    metered(rt, "source, meter 1 1", from.meter(1, 1))
}

pub fn copies(rt: &HostRuntime) -> io::Result<()> {
    let mut cells = [Cell {
        symbol: None,
        meter: 0,
    }; 4];
    let mut bytes = [0u8; 24];
    if let Ok(small) = Bank::check(&cells, 2, 2) {
        if let Ok(large) = CardImage::<Decimal>::check(&bytes, 3, 2) {
            let mut from = Bank::make(&mut cells, small);
            let mut to = CardImage::<Decimal>::make(&mut bytes, large);
            three(rt, &mut from, &mut to, Decimal::Eight, Decimal::Ten)?;
            found(rt, &from, &to)?;
        }
    }
    Ok(())
}
