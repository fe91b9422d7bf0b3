// Fetching a blank data place: the places that are read, and its symbol from the symbols at them.
ghost use Rattle.std.specs.Prelude.{◌≡◌, ◌-◌, ◌<◌, ◌≤◌, length, slice_index_or};
ghost use Rattle.row.specs.Numbered.{numbered as numbered_of};
ghost use Rattle.array.specs.Layout.{steps, wrap, offset};
ghost use Rattle.access.specs.Fetch.{way_of, step_reads, fetch_places, fetch_entries, fetch_symbol, fetch_slot};

use crate::data_place::DataPlace;
use array::{Parameters, around, by_local, past, skip};
use code::{ReadPlan, Solver};
use field::NumberedField;
use sheet::{Entry, Listing, Part, Place, Table};

// How a blank data place is solved: by its own row, by the Class B symbol of its own step, or by that of the last step.
#[derive(Clone, Copy, PartialEq, Eq)]
pub enum Way {
    OwnRow,
    OwnStep,
    LastStep,
}

// The plan of a fetch of one data place.
#[derive(Clone, Copy)]
pub struct FetchPlan {
    place: DataPlace,
}

impl FetchPlan {
    // The plan for the data place in a row of a data node; rows and data nodes wrap around.
    pub fn new(parameters: Parameters, row: usize, column: usize) -> FetchPlan
        ensures parameters { result.place.parameters ≡ parameters }
        ensures row { result.place.row ≡ wrap parameters row }
        ensures column { result.place.column ≡ wrap parameters column }
    {
        FetchPlan {
            place: DataPlace::new(parameters, row, column),
        }
    }

    // How the data place is solved.
    pub fn way(self) -> Way
        ensures { result ≡ way_of self.place.parameters (offset self.place.parameters self.place.row self.place.column) }
    {
        let parameters = self.place.parameters;
        match self.place.offset() {
            x if x <= parameters.tau => Way::OwnRow,
            x if x <= parameters.steps() => Way::OwnStep,
            _ if parameters.b == 0 => Way::OwnRow,
            _ => Way::LastStep,
        }
    }

    // The place listed at l where the step x serves.
    #[tactic(auto, using(crate::proofs::FetchIndex::step_read))]
    fn step_place(self, x: usize, l: usize) -> Place
        requires step { (1 ≤ x) × (x ≤ steps self.place.parameters) }
        requires listed { l < self.place.parameters.k - x }
        ensures { result ≡ slice_index_or (step_reads self.place.parameters self.place.column x) l result }
    {
        let parameters = self.place.parameters;
        let row = self.place.column;
        let node = if l == 0 {
            parameters.step_node(x)
        } else {
            parameters.wrap(row + l)
        };
        Place { row, node }
    }

    // The place listed at l.
    #[tactic(auto, using(crate::proofs::FetchIndex::places_length), unfolding(crate::specs::Fetch::fetch_places))]
    fn place_at(self, l: usize) -> Place
        requires { l < length (fetch_places self.place.parameters self.place.row self.place.column) }
        ensures { result ≡ slice_index_or (fetch_places self.place.parameters self.place.row self.place.column) l result }
    {
        let place = self.place;
        match self.way() {
            Way::OwnRow => Place {
                row: place.row,
                node: skip(place.column, l),
            },
            Way::OwnStep => self.step_place(place.offset(), l),
            Way::LastStep => place.parameters.local_place(place.offset(), place.row, l),
        }
    }
}

// Kept: the offset tells the way when a plan runs, so a match says it, and no type can. `at` puts each place in the first part, as a put's does: one line of three fields, which a helper would not shorten.
impl Listing for FetchPlan {
    ghost entries = { λ p. fetch_entries p.place.parameters p.place.row p.place.column };

    #[tactic(auto, using(crate::proofs::FetchIndex::entries_length))]
    fn len(&self) -> usize {
        let parameters = self.place.parameters;
        match self.way() {
            Way::OwnRow => parameters.k,
            Way::OwnStep => parameters.k - self.place.offset(),
            Way::LastStep => parameters.k - parameters.steps(),
        }
    }

    #[tactic(auto, using(crate::proofs::Reached::length_part, crate::proofs::Indices::entry_read), unfolding(crate::specs::Fetch::fetch_entries))]
    fn at(&self, i: usize) -> Entry {
        Entry {
            part: Part::First,
            place: self.place_at(i),
        }
    }
}

#[tactic(auto, unfolding(crate::specs::Fetch::fetch_symbol))]
impl<F: NumberedField> Solver<F> for FetchPlan {
    // It has one symbol, whatever row it is asked for.
    ghost ready = { λ p row. Unit {0} };

    ghost solved = { λ p v row. fetch_symbol F.Field.ops (numbered_of F.Field.ops.zero F.NumberedField.symbol) p.place.parameters v p.place.row p.place.column };

    fn solve<T: Table<F>>(&self, table: &T, _row: usize) -> F {
        let place = self.place;
        let parameters = place.parameters;
        match self.way() {
            Way::OwnRow => around(parameters, table, place.column, place.row, place.column),
            Way::OwnStep => {
                let x = place.offset();
                let given = table.look(place.column, parameters.step_node(x));
                given.difference(past(parameters, table, place.column, x))
            }
            Way::LastStep => {
                let x = place.offset();
                by_local(parameters, table, parameters.k - x, place.row)
            }
        }
    }
}

impl<F: NumberedField> ReadPlan<F> for FetchPlan {
    ghost slot = { λ p row node. fetch_slot p.place.parameters p.place.row p.place.column row node };

    // The record of working memory for a place.
    fn slot(&self, row: usize, node: usize) -> usize {
        let place = self.place;
        let k = place.parameters.k;
        if row < k && node < k {
            k * row + node
        } else {
            k * place.row + place.column
        }
    }
}
