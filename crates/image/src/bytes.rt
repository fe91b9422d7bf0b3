// How a card image keeps its places: each in four bytes.
ghost use Rattle.std.specs.Prelude.{◌≡◌, ◌+◌, ◌*◌, ◌≤◌, length};
ghost use Rattle.image.specs.Bytes.{Zeros, bytes_of, four, holds, rewound, wear};

use crate::LIFE;
use crate::record::Record;
use field::NumberedField;
use medium::Medium;

// The record of a place.
fn record(bytes: &[u8], spot: usize) -> Record
    requires { 4 * (spot + 1) ≤ length bytes.now }
    ensures { result ≡ four bytes.now (4 * spot) }
{
    let at = 4 * spot;
    let [mark, high, low, meter] = &bytes[at..at + 4] else {
        unreachable!()
    };
    Record {
        mark: *mark,
        high: *high,
        low: *low,
        meter: *meter,
    }
}

// Places in bytes, four each.
pub struct Bytes;

impl<F: NumberedField> Medium<F> for Bytes {
    type Unit = u8;

    ghost life = { 250 };

    ghost each = { 4 };

    ghost symbols = { λ bytes k. holds F.NumberedField.symbol (four bytes (4 * k)) };

    ghost meters = { λ bytes k. wear (four bytes (4 * k)) };

    ghost counts = { λ bytes k. (four bytes (4 * k)).meter };

    ghost rest = { λ bytes k. bytes_of (rewound (four bytes (4 * k))) };

    ghost Bare = { λ bytes k. Zeros (4 * k) (4 * (k + 1)) bytes };

    fn life() -> u16 {
        LIFE
    }

    fn symbol(bytes: &[u8], spot: usize) -> Option<F> {
        let r = record(bytes, spot);
        if r.mark == 1 {
            F::symbol(usize::from(u16::from_be_bytes([r.high, r.low])))
        } else {
            None
        }
    }

    fn meter(bytes: &[u8], spot: usize) -> u16 {
        let r = record(bytes, spot);
        u16::from(r.meter).min(LIFE)
    }

    fn raise(bytes: &mut [u8], spot: usize) {
        bytes[4 * spot + 3] += 1;
    }

    fn put(bytes: &mut [u8], spot: usize, x: F) {
        // Kept: a cast, which the check proves to lose nothing, where `try_from` would answer an error that never comes.
        let [high, low] = (x.number() as u16).to_be_bytes();
        let at = 4 * spot;
        // Kept: three writes, since what a place holds after a copy of a run is left open by the check.
        bytes[at] = 1;
        bytes[at + 1] = high;
        bytes[at + 2] = low;
    }

    fn blank(bytes: &mut [u8], spot: usize) {
        let at = 4 * spot;
        bytes[at..at + 4].fill(0);
    }

    fn rewind(bytes: &mut [u8], spot: usize) {
        bytes[4 * spot + 3] = 0;
    }
}
