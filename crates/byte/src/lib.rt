// Byte symbols: the field of 256 elements whose symbols are the bytes.
#![tactic(auto)]

mod arithmetic;
mod byte;
mod conversion;
mod symbols;
mod tables;

pub use arithmetic::{inverse, product, product_by_bits};
pub use byte::Byte;
