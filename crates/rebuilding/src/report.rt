// Rebuilding each symbol of a row, and writing what came back.
ghost use Rattle.std.specs.Prelude.{◌≡◌, ◌+◌, ◌<◌, ◌≤◌, ◌∷◌, ◌++◌, List, ℕ, Some, length, IfOk, OnOk, slice_index_or, string_bytes};
ghost use Rattle.std.specs.List.{flat_map};
ghost use Rattle.field.specs.declared.decimal.Decimal.TheVariants.{Zero};
ghost use Rattle.row_text.specs.Input.{symbols_of};
ghost use Rattle.rebuilding.specs.Report.{row_line, read_places, place_line, report as report_of, transcript_of};

use crate::data_row::Row;
use field::Decimal;
use row_text::{count_symbols, line_within, symbols_into};
use std::alloc::{AllocError, Global};
use std::fmt::Display;

// Adds the items, each after a space.
fn push_spaced<D: Display + Copy>(out: &mut String, items: &[D]) -> Result<(), AllocError>
    ensures { OnOk result ((text : D → List ℕ) → ((d : D) → D.output d ≡ Some (text d)) → string_bytes out.new ≡ string_bytes out.old ++ flat_map (λ d. 32 ∷ text d) items.now) }
{
    for item in items {
        write!(out, " {item}")?;
    }
    Ok(())
}

// Adds the row with the two symbols that follow it.
fn push_row(out: &mut String, row: &Row<'_>) -> Result<(), AllocError>
    ensures { OnOk result (string_bytes out.new ≡ string_bytes out.old ++ row_line row.now.symbols.now) }
{
    let second = row.symbol(row.symbols.len() + 1);
    out.push_str("row")?;
    push_spaced(out, row.symbols)?;
    writeln!(out, " {} {second}", row.last)
}

// Rebuilds place j, adds its line and gives the symbol that came back.
fn push_place(out: &mut String, row: &Row<'_>, j: usize) -> Result<Decimal, AllocError>
    requires { j < length row.now.symbols.now }
    ensures { IfOk result (λ u. (u ≡ slice_index_or row.now.symbols.now j Zero) × (string_bytes out.new ≡ string_bytes out.old ++ place_line j (read_places (length row.now.symbols.now) j) (slice_index_or row.now.symbols.now j Zero))) }
{
    let numbers = row.numbers_for(*out.allocator(), j)?;
    let back = row.rebuilt(*out.allocator(), &numbers, j)?;
    write!(out, "place {j} read")?;
    push_spaced(out, &numbers)?;
    writeln!(out, " gave {back}")?;
    Ok(back)
}

// Adds what is written of a row.
fn push_report(out: &mut String, row: &Row<'_>) -> Result<(), AllocError>
    ensures { OnOk result (string_bytes out.new ≡ string_bytes out.old ++ report_of row.now.symbols.now) }
{
    push_row(out, row)?;
    let mut right = 0usize;
    for (j, symbol) in row.symbols.iter().enumerate() {
        if push_place(out, row, j)? == *symbol {
            right += 1;
        }
    }
    writeln!(out, "{right} of {} came back right", row.symbols.len())
}

// What is written of a line that holds k symbols.
fn report(alloc: Global, line: &[u8], k: usize) -> Result<String, AllocError>
    requires { k ≤ 9 }
    ensures { IfOk result (λ text. string_bytes text ≡ report_of (symbols_of line.now k)) }
{
    let mut symbols = vec![in alloc; Decimal::Zero; k]?;
    symbols_into(line, &mut symbols);
    let mut text = String::new(alloc);
    push_report(&mut text, &Row::of(&symbols))?;
    Ok(text)
}

// What is written of an input.
#[tactic(auto, using(crate::proofs::Writing::fault_written))]
fn answer(alloc: Global, input: &[u8]) -> Result<String, AllocError>
    ensures { IfOk result (λ text. string_bytes text ≡ transcript_of input.now) }
{
    let line = line_within(input);
    match count_symbols(line) {
        Ok(k) => report(alloc, line, k),
        Err(fault) => format!(in alloc; "{fault}\n"),
    }
}

// Adds what the program writes of an input.
pub fn transcript(input: &[u8], out: &mut Vec<u8>) -> Result<(), AllocError>
    ensures { OnOk result (out.new.items ≡ out.old.items ++ transcript_of input.now) }
{
    let text = answer(*out.allocator(), input)?;
    out.extend_from_slice(text.as_bytes())
}
