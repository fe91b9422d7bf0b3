// The two-class code behind the engine's interface.
ghost use Rattle.row.specs.Numbered.{numbered as numbered_of, numbered};
ghost use Rattle.repair.specs.TwoClass.{two_class};
ghost use Rattle.row.proofs.Numbers.{numbered_apart};
ghost use Rattle.array.proofs.Restoring.{restores};
ghost use Rattle.array.proofs.Standing.{stands};
ghost use Rattle.access.proofs.Reached.{fetches};
ghost use Rattle.access.proofs.Replacing.{puts};
ghost use Rattle.repair.specs.Lawful.{lawful as two_class_lawful};

use crate::types::TwoClass;
use access::{FetchPlan, PutPatch};
use code::Code;
use field::{Field, NumberedField};
use mending::{Column, Mend};
use store::Store;

#[tactic(auto, unfolding(crate::specs::TwoClass::two_class))]
impl<F: NumberedField> Code<F> for TwoClass {
    type MendPlan = Mend<F>;

    type FetchPlan = FetchPlan;

    type Column = Column<F>;

    type Patch = PutPatch;

    ghost code = { λ c. two_class F.Field.ops (numbered_of F.Field.ops.zero F.NumberedField.symbol) c.parameters };

    ghost lawful = { unfold two_class in
        let o = F.Field.ops in
        let symbol = numbered o.zero F.NumberedField.symbol in
        let size = F.NumberedField.size in
        let apart = numbered_apart o.zero size F.NumberedField.symbol F.NumberedField.number F.NumberedField.numbering in
        λ c large. two_class_lawful o symbol size (restores F.Field.laws apart) stands (fetches F.Field.laws apart) (puts F.Field.laws symbol) c.parameters large };

    fn rows(&self) -> usize {
        self.parameters.k
    }

    fn columns(&self) -> usize {
        self.parameters.k
    }

    fn nodes(&self) -> usize {
        let parameters = self.parameters;
        parameters.nodes()
    }

    fn field_size(&self) -> usize {
        self.parameters.k + self.parameters.a
    }

    fn fetch_room(&self) -> usize {
        self.parameters.k * self.parameters.k
    }

    fn mend_room(&self, _node: usize) -> usize {
        self.parameters.k * self.parameters.k
    }

    fn column(&self, node: usize) -> Column<F> {
        Column::new(self.parameters, node)
    }

    fn mend_plan<S: Store<F>>(&self, _store: &S, node: usize) -> Mend<F> {
        Mend::new(self.parameters, node)
    }

    fn fetch_plan<S: Store<F>>(&self, _store: &S, row: usize, column: usize) -> FetchPlan {
        FetchPlan::new(self.parameters, row, column)
    }

    fn put_patch(&self, row: usize, column: usize) -> PutPatch {
        PutPatch::new(self.parameters, row, column)
    }
}
