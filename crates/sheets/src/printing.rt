// Sheets and refusals as text.
use crate::asking::AskFault;
use mending::NodeSheet;
use sheet::{Entries, Place};
use std::io;
use std::io::Write;

// Whether one of the first `n` places of a sheet's listing is this one.
fn listed_before(sheet: NodeSheet, n: usize, place: Place) -> bool {
    Entries::of(&sheet)
        .take(n)
        .any(|entry| entry.place == place)
}

// How many places a sheet has: a place already listed is skipped.
fn count(sheet: NodeSheet) -> usize {
    Entries::of(&sheet)
        .enumerate()
        .filter(|(i, entry)| !listed_before(sheet, *i, entry.place))
        .count()
}

// Adds a line of a part, a row and a node for each place of a sheet.
fn push_places(out: &mut Vec<u8>, sheet: NodeSheet) -> io::Result<()> {
    for (i, entry) in Entries::of(&sheet).enumerate() {
        let Place { row, node } = entry.place;
        if !listed_before(sheet, i, entry.place) {
            writeln!(out, "{}\t{row}\t{node}", entry.part.number())?;
        }
    }
    Ok(())
}

// How a place looks in the picture of an array.
fn mark(sheet: NodeSheet, place: Place) -> u8 {
    if place.node == sheet.node() {
        b'x'
    } else if Entries::of(&sheet).any(|entry| entry.place == place) {
        b'R'
    } else {
        b'.'
    }
}

// Adds a row of the picture.
fn push_row(out: &mut Vec<u8>, sheet: NodeSheet, row: usize) -> io::Result<()> {
    for node in 0..sheet.parameters().nodes() {
        out.push(mark(sheet, Place { row, node }))?;
    }
    writeln!(out)
}

// Adds a sheet: its size, its places in order, and a picture of the array.
pub fn push_sheet(out: &mut Vec<u8>, sheet: NodeSheet) -> io::Result<()> {
    writeln!(out, "places\t{}", count(sheet))?;
    push_places(out, sheet)?;
    for row in 0..sheet.parameters().k {
        push_row(out, sheet, row)?;
    }
    writeln!(out)
}

// Adds a refusal.
pub fn push_decline(out: &mut Vec<u8>, fault: AskFault) -> io::Result<()> {
    writeln!(out, "no\t{}", fault.number())
}
