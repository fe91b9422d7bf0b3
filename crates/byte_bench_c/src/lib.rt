// The functions of `byte_bench`, exported for a benchmark to call from outside.
// Kept: a C program calls these by name, and an exported name stands in no generic or re-exported function.
#![tactic(auto)]

ghost use Rattle.std.specs.Prelude.{◌≡◌, length};
ghost use Rattle.byte.specs.Bytes.{byte_operations, byte_symbol};
ghost use Rattle.row.specs.Weights.{weighed, data_weights};
ghost use Rattle.byte_bench.specs.Horner.{value_of};

use byte::Byte;

// The value at `x` of the polynomial with these coefficients, the highest first: each product waits for the one before.
#[unsafe(no_mangle)]
pub extern "C" fn byte_value_at(coefficients: &[Byte], x: Byte) -> Byte
    ensures { result ≡ value_of (length coefficients.now) coefficients.now x }
{
    byte_bench::byte_value_at(coefficients, x)
}

// The sum of the values, each times its weight: the products do not wait for each other.
#[unsafe(no_mangle)]
pub extern "C" fn byte_weigh(weights: &[Byte], values: &[Byte]) -> Byte
    ensures { result ≡ weighed byte_operations weights.now values.now }
{
    byte_bench::byte_weigh(weights, values)
}

// What each data symbol of a row counts at number m.
#[unsafe(no_mangle)]
pub extern "C" fn byte_weights(m: usize, out: &mut [Byte])
    ensures { out.new ≡ data_weights byte_operations byte_symbol (length out.old) m }
{
    byte_bench::byte_weights(m, out);
}
