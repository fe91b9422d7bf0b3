// The entries of a listing, one by one.
ghost use Rattle.std.specs.Prelude.{◌≡◌, ◌≤◌, length};
ghost use Rattle.std.specs.Iterator.{YieldsFirst, item_count};
ghost use Rattle.sheet.specs.Entries.{left};

use crate::{Entries, Entry, Listing};

impl<'l, L: Listing> Entries<'l, L> {
    // All entries of a listing.
    pub fn of(listing: &'l L) -> Entries<'l, L>
        ensures all { left result ≡ L.Listing.entries listing.now }
        ensures few { length (L.Listing.entries listing.now) ≤ usize.MAX }
    {
        Entries {
            listing,
            places: 0..listing.len(),
        }
    }
}

impl<L: Listing> Iterator for Entries<'_, L> {
    type Item = Entry;

    ghost next_gives = { YieldsFirst left };

    ghost remaining = { item_count left };

    fn next(&mut self) -> Option<Entry> {
        let i = self.places.next()?;
        Some(self.listing.at(i))
    }
}
