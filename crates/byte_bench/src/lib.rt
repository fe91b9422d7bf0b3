// Byte symbols and the row rule over them, for a benchmark.
#![tactic(auto)]

ghost use Rattle.std.specs.Prelude.{◌≡◌, length};
ghost use Rattle.byte.specs.Bytes.{byte_operations, byte_symbol};
ghost use Rattle.row.specs.Weights.{weighed, data_weights};
ghost use Rattle.byte_bench.specs.Horner.{value_of};

use byte::Byte;
use field::Field;

// The value at `x` of the polynomial with these coefficients, the highest first: each product waits for the one before.
pub fn byte_value_at(coefficients: &[Byte], x: Byte) -> Byte
    ensures { result ≡ value_of (length coefficients.now) coefficients.now x }
{
    let mut total = Byte::new(0);
    for coefficient in coefficients {
        total = total.product(x).sum(*coefficient);
    }
    total
}

// The sum of the values, each times its weight: the products do not wait for each other.
pub fn byte_weigh(weights: &[Byte], values: &[Byte]) -> Byte
    ensures { result ≡ weighed byte_operations weights.now values.now }
{
    row::weigh(weights, values)
}

// What each data symbol of a row counts at number m.
pub fn byte_weights(m: usize, out: &mut [Byte])
    ensures { out.new ≡ data_weights byte_operations byte_symbol (length out.old) m }
{
    row::data_weights_into(m, out);
}
