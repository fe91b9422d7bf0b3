// Working memory: vacated before a reading, and wiped after it.
ghost use Rattle.std.specs.Prelude.{◌≡◌};
ghost use Rattle.calls.specs.Reading.{wiped};
ghost use Rattle.reading.specs.Tables.{Vacated, spread_over};

use field::NumberedField;
use sheet::{Place, Record};

// Makes each record the same.
fn spread<F: NumberedField>(memory: &mut [Record<F>], each: Record<F>)
    ensures { memory.new ≡ spread_over each memory.old }
{
    // Kept: `fill` clones, and of a symbol's clone nothing is known.
    for record in memory.iter_mut() {
        *record = each;
    }
}

// Gives each record a row that no store has.
#[tactic(auto, using(crate::proofs::Gathering::spread_vacated), unfolding(crate::specs::Tables::vacant_record))]
pub fn vacate<F: NumberedField>(memory: &mut [Record<F>])
    ensures { Vacated F.Field.ops.zero memory.new }
{
    spread(
        memory,
        Record {
            place: Place {
                row: usize::MAX,
                node: 0,
            },
            symbol: F::zero(),
        },
    );
}

// Puts each record at place 0, 0 with symbol zero.
#[tactic(auto, unfolding(calls::specs::Reading::wiped, calls::specs::Reading::blank_record, crate::specs::Tables::spread_over))]
pub fn wipe<F: NumberedField>(memory: &mut [Record<F>])
    ensures { memory.new ≡ wiped F.Field.ops.zero memory.old }
{
    spread(
        memory,
        Record {
            place: Place { row: 0, node: 0 },
            symbol: F::zero(),
        },
    );
}
