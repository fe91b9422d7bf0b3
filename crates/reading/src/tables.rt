// What was read, in the slots of working memory, as a table of symbols by place.
ghost use Rattle.reading.specs.Tables.{kept};

use code::ReadPlan;
use field::NumberedField;
use sheet::{Place, Record, Table};

// What was read by a plan, each symbol in its place's slot.
#[derive(Clone, Copy)]
pub struct Cache<'m, 'p, F, P> {
    pub records: &'m [Record<F>],
    pub plan: &'p P,
}

impl<F: NumberedField, P: ReadPlan<F>> Table<F> for Cache<'_, '_, F, P> {
    ghost held = { λ c. kept F.Field.ops.zero c.records.now (P.ReadPlan.slot c.plan.now) };

    #[tactic(auto, unfolding(crate::specs::Tables::kept, crate::specs::Tables::symbol_for, crate::specs::Tables::has_place, calls::specs::Reading::blank_record))]
    fn look(&self, row: usize, node: usize) -> F {
        let place = Place { row, node };
        match self.records.get(self.plan.slot(row, node)) {
            Some(record) if record.place == place => record.symbol,
            _ => F::zero(),
        }
    }
}
