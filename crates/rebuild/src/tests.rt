// Decimal symbols, rows of them, and what is written of some inputs.
use field::{Decimal, Field, NumberedField};
use rebuilding::transcript;
use row::{
    RowFault, data_weights_into, numbered, rebuild, replaced, row_symbol, weigh, weight,
    weights_into,
};
use std::process::Abort;
use std::test::*;

#[test]
fn inverses(rt: HostRuntime) -> Result<(), Fail> {
    assert!(rt; Decimal::Four.inverse().number() == 3);
    assert!(rt; Decimal::Two.inverse().number() == 6);
    assert!(rt; Decimal::Ten.inverse().number() == 10);
    assert!(rt; Decimal::Zero.inverse().number() == 0);
    Ok(())
}

#[test]
fn operations(rt: HostRuntime) -> Result<(), Fail> {
    assert!(rt; Decimal::Seven.sum(Decimal::Eight).number() == 4);
    assert!(rt; Decimal::Three.difference(Decimal::Five).number() == 9);
    assert!(rt; Decimal::Six.product(Decimal::Nine).number() == 10);
    Ok(())
}

#[test]
fn numbers(rt: HostRuntime) -> Result<(), Fail> {
    assert!(rt; <Decimal as NumberedField>::size() == 11);
    assert!(rt; Decimal::Ten.number() == 10);
    assert!(rt; <Decimal as NumberedField>::symbol(10).is_some());
    assert!(rt; <Decimal as NumberedField>::symbol(11).is_none());
    Ok(())
}

// The decimal symbols with four numbers.
fn four(a: usize, b: usize, c: usize, d: usize) -> [Decimal; 4] {
    [numbered(a), numbered(b), numbered(c), numbered(d)]
}

// The number of an answer's symbol, or 11.
fn number_of(answer: Result<Decimal, RowFault>) -> usize {
    answer.map_or(11, |u| u.number())
}

// Whether the row goes on with the symbols of these numbers.
fn goes_on(symbols: [Decimal; 4], first: usize, second: usize) -> bool {
    number_of(row_symbol(&symbols, 4)) == first && number_of(row_symbol(&symbols, 5)) == second
}

#[test]
fn rows_of_four(rt: HostRuntime) -> Result<(), Fail> {
    assert!(rt; goes_on(four(3, 1, 4, 1), 3, 10));
    assert!(rt; goes_on(four(5, 9, 2, 6), 10, 3));
    assert!(rt; goes_on(four(5, 3, 5, 8), 9, 5));
    assert!(rt; goes_on(four(9, 7, 9, 3), 10, 7));
    Ok(())
}

#[test]
fn rebuilds(rt: HostRuntime) -> Result<(), Fail> {
    let known = four(10, 3, 1, 3);
    assert!(rt; number_of(rebuild(&[5, 4, 1, 0], &known, 2)) == 4);
    assert!(rt; rebuild(&[5, 4, 1, 5], &known, 2) == Err(RowFault::Repeated));
    assert!(rt; rebuild(&[5, 4, 1, 11], &known, 2) == Err(RowFault::NoSymbol));
    assert!(rt; rebuild(&[5, 4, 1], &known, 2) == Err(RowFault::Uneven));
    Ok(())
}

#[test]
fn replaces_four_by_ten(rt: HostRuntime) -> Result<(), Fail> {
    let share = weight(4, 2, 5)?;
    let after = replaced(share, Decimal::Four, Decimal::Ten, Decimal::Ten);
    assert!(rt; number_of(row_symbol(&four(3, 1, 10, 1), 5)) == after.number());
    Ok(())
}

#[test]
fn weighs(rt: HostRuntime) -> Result<(), Fail> {
    let mut weights = four(0, 0, 0, 0);
    data_weights_into(5, &mut weights);
    assert!(rt; weigh(&weights, &four(3, 1, 4, 1)).number() == 10);
    weights_into(&[5, 4, 1, 0], 2, &mut weights);
    assert!(rt; weigh(&weights, &four(10, 3, 1, 3)).number() == 4);
    Ok(())
}

// Checks what is written of an input.
fn writes(rt: &(impl Abort + AllocGlobal), input: &[u8], expected: &[u8]) -> Result<(), Fail> {
    let mut out = Vec::new(rt.alloc());
    transcript(input, &mut out)?;
    assert!(rt; out.as_slice() == expected);
    Ok(())
}

#[test]
fn a_row_of_three(rt: HostRuntime) -> Result<(), Fail> {
    writes(
        &rt,
        b"5 9 X",
        b"row 5 9 X 8 3\nplace 0 read 1 2 3 gave 5\nplace 1 read 0 2 3 gave 9\nplace 2 read 0 1 3 gave X\n3 of 3 came back right\n",
    )
}

#[test]
fn no_words(rt: HostRuntime) -> Result<(), Fail> {
    writes(&rt, b"\n", b"words: 0, and a row has 3 to 9\n")
}

#[test]
fn two_words(rt: HostRuntime) -> Result<(), Fail> {
    writes(&rt, b"3 1\n", b"words: 2, and a row has 3 to 9\n")
}

#[test]
fn ten_words(rt: HostRuntime) -> Result<(), Fail> {
    writes(
        &rt,
        b"3 1 4 1 5 9 2 6 5 3",
        b"words: 10, and a row has 3 to 9\n",
    )
}

#[test]
fn ten_as_a_number(rt: HostRuntime) -> Result<(), Fail> {
    writes(
        &rt,
        b"3 10 4 1",
        b"word 2 at column 3: a symbol is one of 0 to 9 or X\n",
    )
}

#[test]
fn two_spaces(rt: HostRuntime) -> Result<(), Fail> {
    writes(
        &rt,
        b"3  1 4",
        b"word 2 at column 3: a symbol is one of 0 to 9 or X\n",
    )
}

#[test]
fn a_space_at_the_end(rt: HostRuntime) -> Result<(), Fail> {
    writes(
        &rt,
        b"3 1 4 \n",
        b"word 4 at column 7: a symbol is one of 0 to 9 or X\n",
    )
}

#[test]
fn no_text(rt: HostRuntime) -> Result<(), Fail> {
    writes(&rt, b"3 1 \xff 1", b"column 5: this byte is no text\n")
}
