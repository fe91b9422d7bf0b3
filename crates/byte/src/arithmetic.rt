// Products and inverses of bytes.
ghost use Rattle.std.specs.Prelude.{◌≡◌, ◌≢◌};
ghost use Rattle.byte.specs.Polynomial.{multiply, times_x, TheRemainder};
ghost use Rattle.byte.specs.Bytes.{byte_product, byte_inverse};

use super::tables::{exponent_of, power_at};

// The product of two bytes, by the tables: exponents add up.
pub fn product(a: u8, b: u8) -> u8
    ensures product { result ≡ byte_product a b }
    ensures remainder { TheRemainder (multiply 8 a b) result }
{
    if a == 0 || b == 0 {
        return 0;
    }
    power_at(exponent_of(a) + exponent_of(b))
}

// The inverse of a byte, by the tables; that of 0 is 0.
pub fn inverse(a: u8) -> u8
    ensures inverse { result ≡ byte_inverse a }
    ensures undoes { (a ≢ 0) → byte_product a result ≡ 1 }
    ensures zero { a ≡ 0 → result ≡ 0 }
{
    if a == 0 {
        return 0;
    }
    power_at(255 - exponent_of(a))
}

// x times a byte: where that has x^8, the modulus takes it away.
#[tactic(auto, using(crate::specs::Times::times_x_low, crate::specs::Times::times_x_high, crate::specs::Times::times_x_lt))]
fn shifted(a: u8) -> u8
    ensures { result ≡ times_x a }
{
    if a < 128 {
        a * 2
    } else {
        // Kept: a cast, which the check proves to lose nothing, where `try_from` would answer an error that never comes.
        ((u16::from(a) * 2) ^ 0x11D) as u8
    }
}

// The product of two bytes with no table, bit by bit.
pub fn product_by_bits(a: u8, b: u8) -> u8
    ensures { result ≡ byte_product a b }
{
    let mut result = 0;
    let mut factor = a;
    let mut rest = b;
    for _ in 0..u8::BITS {
        if rest % 2 != 0 {
            result ^= factor;
        }
        factor = shifted(factor);
        rest /= 2;
    }
    result
}
