// The words of a line.
ghost use Rattle.std.specs.Prelude.{◌+◌, ◌^◌, ◌<◌, length, sum_by};
ghost use Rattle.text.specs.Walk.{to_come};

use crate::parts::Parts;

// A part of a line, and where it begins: columns are counted in bytes from 1.
#[derive(Clone, Copy)]
pub struct Word<'a> {
    pub bytes: &'a [u8],
    pub column: usize,
}

// The words of a line from some place on, and the column of the first of them.
#[derive(Clone, Copy)]
pub struct Words<'a> {
    pub(crate) parts: Parts<'a, b'\t'>,
    pub(crate) column: usize,
    ghost fits: { column + sum_by (λ w. length w + 1) (to_come 9 parts.rest) < 2 ^ 64 },
}
