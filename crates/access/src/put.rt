// Replacing one data symbol: the places that change, and the weight of the difference at each.
ghost use Rattle.std.specs.Prelude.{◌≡◌, ℕ, ◌<◌, ◌≤◌, length, slice_index_or};
ghost use Rattle.row.specs.Numbered.{numbered as numbered_of};
ghost use Rattle.array.specs.Layout.{wrap, offset};
ghost use Rattle.access.specs.Put.{crossings, carries, put_places, put_entries, put_weight};

use crate::data_place::DataPlace;
use array::{Parameters, weight};
use code::Patch;
use field::NumberedField;
use row::numbered;
use sheet::{Entry, Listing, Part, Place};

// What a put of one data symbol changes.
#[derive(Clone, Copy)]
pub struct PutPatch {
    place: DataPlace,
}

impl PutPatch {
    // The changes of a put to the data place in a row of a data node; rows and data nodes wrap around.
    pub fn new(parameters: Parameters, row: usize, column: usize) -> PutPatch
        ensures parameters { result.place.parameters ≡ parameters }
        ensures row { result.place.row ≡ wrap parameters row }
        ensures column { result.place.column ≡ wrap parameters column }
    {
        PutPatch {
            place: DataPlace::new(parameters, row, column),
        }
    }

    // How many Class B symbols of its row contain the data symbol.
    fn crossings(self) -> usize
        ensures { result ≡ crossings self.place.parameters (offset self.place.parameters self.place.row self.place.column) }
    {
        let parameters = self.place.parameters;
        match self.place.offset() {
            x if x <= parameters.tau => 0,
            x if x <= parameters.steps() => x - 1 - parameters.tau,
            _ => parameters.b,
        }
    }

    // How many symbols have the data symbol as the first term of their step.
    fn carries(self) -> usize
        ensures { result ≡ carries self.place.parameters (offset self.place.parameters self.place.row self.place.column) }
    {
        let parameters = self.place.parameters;
        match self.place.offset() {
            0 => 0,
            x if x <= parameters.steps() => 1,
            _ => 0,
        }
    }

    // The place listed at l.
    #[tactic(auto, using(crate::proofs::PutIndex::put_reads))]
    fn place_at(self, l: usize) -> Place
        requires { l < length (put_places self.place.parameters self.place.row self.place.column (offset self.place.parameters self.place.row self.place.column)) }
        ensures { result ≡ slice_index_or (put_places self.place.parameters self.place.row self.place.column (offset self.place.parameters self.place.row self.place.column)) l result }
    {
        let place = self.place;
        let parameters = place.parameters;
        if l == 0 {
            return Place {
                row: place.row,
                node: place.column,
            };
        }
        if l <= parameters.a {
            return Place {
                row: place.row,
                node: parameters.k + (l - 1),
            };
        }
        let rest = l - parameters.a;
        if rest <= self.crossings() {
            return Place {
                row: place.row,
                node: parameters.step_node(parameters.tau + rest),
            };
        }
        Place {
            row: place.column,
            node: parameters.step_node(place.offset()),
        }
    }

    // The weight of the data symbol at a place.
    // Kept: it asks nothing of the place, where `Patch::weight` asks that it is listed.
    #[tactic(auto, unfolding(crate::specs::Put::put_weight))]
    pub fn weight_at<F: NumberedField>(self, place: Place) -> F
        ensures { result ≡ put_weight F.Field.ops (numbered_of F.Field.ops.zero F.symbol) self.place.parameters self.place.row self.place.column place.row place.node }
    {
        let data = self.place;
        let k = data.parameters.k;
        if place.row == data.row && k <= place.node && place.node < k + data.parameters.a {
            weight(k, k, data.column, numbered::<F>(place.node))
        } else {
            F::one()
        }
    }
}

impl Listing for PutPatch {
    ghost entries = { λ p. put_entries p.place.parameters p.place.row p.place.column };

    #[tactic(auto, using(crate::proofs::Replacing::put_size_is))]
    fn len(&self) -> usize {
        1 + self.place.parameters.a + self.crossings() + self.carries()
    }

    #[tactic(auto, using(crate::proofs::Reached::length_part, crate::proofs::Indices::entry_read), unfolding(crate::specs::Put::put_entries))]
    fn at(&self, i: usize) -> Entry {
        Entry {
            part: Part::First,
            place: self.place_at(i),
        }
    }
}

impl<F: NumberedField> Patch<F> for PutPatch {
    ghost weight = { λ p r m. put_weight F.Field.ops (numbered_of F.Field.ops.zero F.NumberedField.symbol) p.place.parameters p.place.row p.place.column r m };

    fn weight(&self, place: Place) -> F {
        self.weight_at(place)
    }
}
