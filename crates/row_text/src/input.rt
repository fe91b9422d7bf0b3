// Reading a row off a line of text.
ghost use Rattle.std.specs.Prelude.{◌≡◌, ◌^◌, ◌<◌, ◌≤◌, length, None, Some, IfOk, MatchResult};
ghost use Rattle.row_text.specs.Input.{glyph_of, symbol_byte, sound, printable, fault_at, first_fault, counted, row_length, symbol_at, symbols_of, line_of};

use crate::fault::InputFault;
use field::{Decimal, NumberedField};

// The byte that writes a symbol.
// Kept: a byte, where a symbol prints as text.
pub fn glyph(u: Decimal) -> u8
    ensures { result ≡ glyph_of u }
{
    b"0123456789X"[u.number()]
}

// The symbol that a byte writes, where it writes one.
// Kept: callers know the conversion by this name, and a `TryFrom<u8>` beside it would only be a second one.
pub fn symbol_of(b: u8) -> Option<Decimal>
    ensures { result ≡ symbol_byte b }
{
    match b {
        b'0'..=b'9' => Decimal::symbol(usize::from(b - b'0')),
        b'X' => Some(Decimal::Ten),
        _ => None,
    }
}

// Whether byte b may stand at place i.
fn may_stand(i: usize, b: u8) -> bool
    ensures { result ≡ sound i b }
{
    if i % 2 == 0 {
        symbol_of(b).is_some()
    } else {
        b == b' '
    }
}

// Whether a byte is a printable character.
fn is_printable(b: u8) -> bool
    ensures { result ≡ printable b }
{
    matches!(b, b' '..=b'~')
}

// What is wrong where b may not stand at place i.
fn fault_of(i: usize, b: u8) -> InputFault
    requires { i < 2 ^ 63 }
    ensures { result ≡ fault_at i b }
{
    if is_printable(b) {
        InputFault::NoSymbol {
            word: i / 2 + 1,
            column: i / 2 * 2 + 1,
        }
    } else {
        InputFault::NotText { column: i + 1 }
    }
}

// Nothing where each byte may stand where it does, else the first fault.
#[tactic(auto, using(crate::proofs::Reading::fault_here, crate::proofs::Reading::fault_more, std::proofs::lemmas::List::at_drop_all))]
fn check_bytes(line: &[u8]) -> Result<(), InputFault>
    ensures { MatchResult result (λ _. first_fault 0 line.now ≡ None) (λ fault. first_fault 0 line.now ≡ Some fault) }
{
    for (i, b) in line.iter().enumerate() {
        if !may_stand(i, *b) {
            return Err(fault_of(i, *b));
        }
    }
    Ok(())
}

// The number of symbols on a line of n bytes of which each may stand where it does.
fn count(n: usize) -> Result<usize, InputFault>
    requires { n < 2 ^ 63 }
    ensures number { result ≡ counted n }
    ensures few { IfOk result (λ k. k ≤ 9) }
{
    if n == 0 {
        return Err(InputFault::WordCount { words: 0 });
    }
    if n % 2 == 0 {
        return Err(InputFault::NoSymbol {
            word: n / 2 + 1,
            column: n + 1,
        });
    }
    match n / 2 + 1 {
        words @ 3..=9 => Ok(words),
        words => Err(InputFault::WordCount { words }),
    }
}

// The number of symbols of the row that a line holds, or what is wrong with the line.
pub fn count_symbols(line: &[u8]) -> Result<usize, InputFault>
    ensures number { result ≡ row_length line.now }
    ensures few { IfOk result (λ k. k ≤ 9) }
{
    check_bytes(line)?;
    count(line.len())
}

// The symbol j of a line.
fn symbol_on(line: &[u8], j: usize) -> Decimal
    requires { j < 2 ^ 63 }
    ensures { result ≡ symbol_at line.now j }
{
    line.get(j * 2)
        .and_then(|b| symbol_of(*b))
        .unwrap_or(Decimal::Zero)
}

// Stores the first symbols of a line, as many as there is room for.
pub fn symbols_into(line: &[u8], out: &mut [Decimal])
    ensures { out.new ≡ symbols_of line.now (length out.old) }
{
    for (j, symbol) in out.iter_mut().enumerate() {
        *symbol = symbol_on(line, j);
    }
}

// An input without a closing line feed.
pub fn line_within(input: &[u8]) -> &[u8]
    ensures { result.now ≡ line_of input.now }
{
    input.strip_suffix(b"\n").unwrap_or(input)
}
