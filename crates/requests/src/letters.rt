// The letters that choose a field and a store.
ghost use Rattle.requests.specs.Letters.{field_letter, store_letter, Chooses};

use crate::request::{FieldKind, StoreKind};
use lines::line::LineFault;

// Kept: an impl for each kind, since each has letters of its own.
impl<'a> TryFrom<&'a [u8]> for FieldKind {
    type Error = LineFault;

    ghost try_from_gives = { λ word r. Chooses field_letter word.now r };

    fn try_from(word: &'a [u8]) -> Result<FieldKind, LineFault> {
        match word {
            b"d" => Ok(FieldKind::Decimal),
            b"b" => Ok(FieldKind::Byte),
            _ => Err(LineFault::Malformed),
        }
    }
}

impl<'a> TryFrom<&'a [u8]> for StoreKind {
    type Error = LineFault;

    ghost try_from_gives = { λ word r. Chooses store_letter word.now r };

    fn try_from(word: &'a [u8]) -> Result<StoreKind, LineFault> {
        match word {
            b"m" => Ok(StoreKind::Bank),
            b"c" => Ok(StoreKind::Image),
            _ => Err(LineFault::Malformed),
        }
    }
}
