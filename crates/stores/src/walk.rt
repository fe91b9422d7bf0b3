// Every call on a new store of 3 rows and 4 nodes, whichever store it is.
use crate::said::{answered, metered, placed, summed};
use field::NumberedField;
use std::io;
use store::Store;

// Kept: `rt` is the handle that each function that prints is given, and the store is lent beside it.
fn sizes<F: NumberedField, S: Store<F>>(rt: &HostRuntime, s: &S) -> io::Result<()> {
    let rows = s.rows();
    let nodes = s.nodes();
    let life = s.life();
    println!(rt; "{rows} rows, {nodes} nodes, life {life}")
}

fn places_off<F: NumberedField, S: Store<F>>(rt: &HostRuntime, s: &mut S, x: F) -> io::Result<()> {
    answered(rt, "probe 3 0", s.probe(3, 0))?;
    answered(rt, "probe 0 4", s.probe(0, 4))?;
    metered(rt, "meter 3 4", s.meter(3, 4))?;
    answered(rt, "read 3 0", s.read(3, 0))?;
    placed(rt, "write 0 4", s.write(0, 4, x))
}

fn nodes_off<F: NumberedField, S: Store<F>>(rt: &HostRuntime, s: &mut S) -> io::Result<()> {
    summed(rt, "clear 4", s.clear(4))?;
    summed(rt, "refresh 4", s.refresh(4))
}

fn blank_place<F: NumberedField, S: Store<F>>(rt: &HostRuntime, s: &mut S) -> io::Result<()> {
    answered(rt, "probe 1 2", s.probe(1, 2))?;
    answered(rt, "read 1 2", s.read(1, 2))?;
    metered(rt, "meter 1 2", s.meter(1, 2))
}

fn held_place<F: NumberedField, S: Store<F>>(rt: &HostRuntime, s: &mut S, x: F) -> io::Result<()> {
    placed(rt, "write 1 2", s.write(1, 2, x))?;
    answered(rt, "probe 1 2", s.probe(1, 2))?;
    answered(rt, "read 1 2", s.read(1, 2))?;
    metered(rt, "meter 1 2", s.meter(1, 2))
}

fn refreshed_place<F: NumberedField, S: Store<F>>(rt: &HostRuntime, s: &mut S) -> io::Result<()> {
    summed(rt, "refresh 2", s.refresh(2))?;
    metered(rt, "meter 1 2", s.meter(1, 2))?;
    answered(rt, "read 1 2", s.read(1, 2))
}

fn cleared_place<F: NumberedField, S: Store<F>>(rt: &HostRuntime, s: &mut S) -> io::Result<()> {
    summed(rt, "clear 1", s.clear(1))?;
    answered(rt, "probe 1 2", s.probe(1, 2))?;
    summed(rt, "clear 2", s.clear(2))?;
    answered(rt, "probe 1 2", s.probe(1, 2))?;
    metered(rt, "meter 1 2", s.meter(1, 2))
}

// Reads a place as often as its life allows, but for one read.
fn nearly_worn<F: NumberedField, S: Store<F>>(s: &mut S, x: F) {
    let _ = s.write(0, 0, x);
    for _ in 1..s.life() {
        let _ = s.read(0, 0);
    }
}

fn worn_place<F: NumberedField, S: Store<F>>(rt: &HostRuntime, s: &mut S) -> io::Result<()> {
    answered(rt, "last read 0 0", s.read(0, 0))?;
    answered(rt, "next read 0 0", s.read(0, 0))?;
    answered(rt, "probe 0 0", s.probe(0, 0))?;
    metered(rt, "meter 0 0", s.meter(0, 0))
}

// A worn place takes a symbol, and answers again once its node is refreshed.
fn rested_place<F: NumberedField, S: Store<F>>(
    rt: &HostRuntime,
    s: &mut S,
    x: F,
) -> io::Result<()> {
    placed(rt, "write 0 0", s.write(0, 0, x))?;
    answered(rt, "probe 0 0", s.probe(0, 0))?;
    summed(rt, "refresh 0", s.refresh(0))?;
    answered(rt, "read 0 0", s.read(0, 0))
}

fn wear_out<F: NumberedField, S: Store<F>>(
    rt: &HostRuntime,
    s: &mut S,
    x: F,
    y: F,
) -> io::Result<()> {
    nearly_worn(s, x);
    worn_place(rt, s)?;
    rested_place(rt, s, y)
}

fn use_up<F: NumberedField, S: Store<F>>(
    rt: &HostRuntime,
    s: &mut S,
    x: F,
    y: F,
) -> io::Result<()> {
    held_place(rt, s, x)?;
    held_place(rt, s, y)?;
    refreshed_place(rt, s)?;
    cleared_place(rt, s)
}

pub fn walk<F: NumberedField, S: Store<F>>(
    rt: &HostRuntime,
    s: &mut S,
    x: F,
    y: F,
) -> io::Result<()> {
    sizes(rt, s)?;
    places_off(rt, s, x)?;
    nodes_off(rt, s)?;
    blank_place(rt, s)?;
    use_up(rt, s, x, y)?;
    wear_out(rt, s, x, y)
}
