// Byte symbols as a numbered field.
ghost use Rattle.std.specs.Prelude.{◌≡◌};
ghost use Rattle.byte.specs.Bytes.{byte_operations, byte_symbol, byte_number};
ghost use Rattle.byte.specs.Laws.{byte_laws, byte_numbering};

use super::arithmetic;
use super::byte::Byte;
use field::{Field, NumberedField};

// How many bytes there are.
const SIZE: usize = 256;

impl Field for Byte {
    ghost ops = { byte_operations };

    ghost laws = { byte_laws };

    fn zero() -> Byte {
        Byte::new(0)
    }

    fn one() -> Byte {
        Byte::new(1)
    }

    fn sum(self, other: Byte) -> Byte {
        Byte::new(self.value ^ other.value)
    }

    // Each symbol is its own negative, so the difference is the sum.
    fn difference(self, other: Byte) -> Byte {
        self.sum(other)
    }

    fn product(self, other: Byte) -> Byte {
        Byte::new(arithmetic::product(self.value, other.value))
    }

    fn inverse(self) -> Byte {
        Byte::new(arithmetic::inverse(self.value))
    }
}

impl NumberedField for Byte {
    ghost size = { 256 };

    ghost symbol = { byte_symbol };

    ghost number = { byte_number };

    ghost numbering = { byte_numbering };

    fn size() -> usize {
        SIZE
    }

    fn symbol(n: usize) -> Option<Byte> {
        u8::try_from(n).ok().map(Byte::new)
    }

    fn number(self) -> usize {
        usize::from(self.value)
    }
}
