// Decimal symbols: the numbers 0 to 10, counted modulo 11.
ghost use Rattle.std.specs.Prelude.{◌≡◌, Some};
ghost use Rattle.field.specs.Decimal.{number_of, symbol_of, modulo, decimal as decimal_operations};
ghost use Rattle.field.specs.Decimals.{decimal_laws, decimal_numbering};
ghost use Rattle.field.specs.Text.{text_of};

use super::{Field, NumberedField};
use std::fmt;

// A decimal symbol, named by its number.
#[derive(Clone, Copy, PartialEq, Eq, Debug)]
pub enum Decimal {
    Zero,
    One,
    Two,
    Three,
    Four,
    Five,
    Six,
    Seven,
    Eight,
    Nine,
    Ten,
}

// The symbols in the order of their numbers.
const SYMBOLS: [Decimal; 11] = [
    Decimal::Zero,
    Decimal::One,
    Decimal::Two,
    Decimal::Three,
    Decimal::Four,
    Decimal::Five,
    Decimal::Six,
    Decimal::Seven,
    Decimal::Eight,
    Decimal::Nine,
    Decimal::Ten,
];

// The symbol that a number leaves modulo 11.
fn reduced(n: usize) -> Decimal
    ensures { result ≡ modulo n }
{
    Decimal::symbol(n % SYMBOLS.len()).unwrap_or(Decimal::Zero)
}

impl Field for Decimal {
    ghost ops = { decimal_operations };

    ghost laws = { decimal_laws };

    fn zero() -> Decimal {
        Decimal::Zero
    }

    fn one() -> Decimal {
        Decimal::One
    }

    fn sum(self, other: Decimal) -> Decimal {
        reduced(self.number() + other.number())
    }

    fn difference(self, other: Decimal) -> Decimal {
        reduced(self.number() + 11 - other.number())
    }

    fn product(self, other: Decimal) -> Decimal {
        reduced(self.number() * other.number())
    }

    fn inverse(self) -> Decimal {
        match self {
            Decimal::Zero => Decimal::Zero,
            Decimal::One => Decimal::One,
            Decimal::Two => Decimal::Six,
            Decimal::Three => Decimal::Four,
            Decimal::Four => Decimal::Three,
            Decimal::Five => Decimal::Nine,
            Decimal::Six => Decimal::Two,
            Decimal::Seven => Decimal::Eight,
            Decimal::Eight => Decimal::Seven,
            Decimal::Nine => Decimal::Five,
            Decimal::Ten => Decimal::Ten,
        }
    }
}

impl NumberedField for Decimal {
    ghost size = { 11 };

    ghost symbol = { symbol_of };

    ghost number = { number_of };

    ghost numbering = { decimal_numbering };

    fn size() -> usize {
        SYMBOLS.len()
    }

    fn symbol(n: usize) -> Option<Decimal> {
        SYMBOLS.get(n).copied()
    }

    fn number(self) -> usize {
        self as usize
    }
}

// A symbol is written as its digit, and ten as X.
impl fmt::Display for Decimal {
    ghost output = { λ u. Some (text_of u) };

    fn fmt<W: fmt::Write>(&self, f: &mut fmt::Formatter<W>) -> fmt::Result {
        match self {
            Decimal::Ten => write!(f, "X"),
            _ => write!(f, "{}", self.number()),
        }
    }
}
