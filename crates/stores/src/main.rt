// Walks through every call and every decline of both stores, with both fields, and prints what each answered.
#![tactic(auto)]

use bank::{Bank, Cell};
use byte::Byte;
use field::{Decimal, NumberedField};
use image::CardImage;
use std::io;
use store::Store;

mod checks;
mod copies;
mod said;
mod walk;

use checks::checks;
use copies::copies;
use said::answered;
use walk::walk;

// A bank in the memory, made and opened again.
fn bank<F: NumberedField>(
    rt: &HostRuntime,
    symbols: &str,
    memory: &mut [Cell<F>],
    x: F,
    y: F,
) -> io::Result<()> {
    println!(rt; "memory bank, {symbols} symbols")?;
    checks(rt, |rows, nodes| Bank::check(memory, rows, nodes))?;
    if let Ok(shape) = Bank::check(memory, 3, 4) {
        let mut made = Bank::make(memory, shape);
        walk(rt, &mut made, x, y)?;
    }
    if let Ok(shape) = Bank::check(memory, 3, 4) {
        let opened = Bank::open(memory, shape);
        answered(rt, "opened, probe 0 0", opened.probe(0, 0))?;
    }
    if let Some(last) = memory.last() {
        let beyond = last.meter;
        println!(rt; "beyond: {beyond}")?;
    }
    Ok(())
}

// Kept: a function beside `bank`, since no call of a store makes or opens one, and each lies in memory of its own kind.

// A card image in 49 bytes, made and opened again.
fn card<F: NumberedField>(rt: &HostRuntime, symbols: &str, x: F, y: F) -> io::Result<()> {
    println!(rt; "card image, {symbols} symbols")?;
    let mut memory = [9u8; 49];
    checks(
        rt,
        |rows, nodes| CardImage::<F>::check(&memory, rows, nodes),
    )?;
    if let Ok(shape) = CardImage::<F>::check(&memory, 3, 4) {
        let mut made = CardImage::<F>::make(&mut memory, shape);
        walk(rt, &mut made, x, y)?;
    }
    if let Ok(shape) = CardImage::<F>::check(&memory, 3, 4) {
        let opened = CardImage::<F>::open(&mut memory, shape);
        answered(rt, "opened, probe 0 0", opened.probe(0, 0))?;
    }
    let beyond = memory[48];
    println!(rt; "beyond: {beyond}")
}

// A cell that holds a symbol and has been read seven times.
fn read_seven_times<F: NumberedField>(x: F) -> Cell<F> {
    Cell {
        symbol: Some(x),
        meter: 7,
    }
}

fn main(rt: HostRuntime) -> io::Result<()> {
    let mut decimals = [read_seven_times(Decimal::Nine); 13];
    bank(&rt, "decimal", &mut decimals, Decimal::Three, Decimal::Ten)?;
    let mut bytes = [read_seven_times(Byte::new(9)); 13];
    bank(&rt, "byte", &mut bytes, Byte::new(77), Byte::new(255))?;
    card(&rt, "decimal", Decimal::Three, Decimal::Ten)?;
    card(&rt, "byte", Byte::new(77), Byte::new(255))?;
    copies(&rt)
}
