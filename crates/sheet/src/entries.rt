// The entries of a listing, in its order.
ghost use Rattle.std.specs.Prelude.{◌≡◌, length};

use crate::Listing;
use std::ops::Range;

// The entries of a listing at some places of it, up to its end.
#[derive(Drop)]
pub struct Entries<'l, L: Listing> {
    pub(crate) listing: &'l L,
    pub(crate) places: Range<usize>,
    ghost whole: { places.end ≡ length (L.Listing.entries listing.now) },
}
