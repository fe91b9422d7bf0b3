// An engine over an erasure code: making, the six calls on a store, and the call that serves any of them.
#![tactic(auto)]

ghost use Rattle.std.specs.Prelude.{◌≡◌, length, OnOk};
ghost use Rattle.calls.specs.Calls.{SetDone, PutDone, FetchDone, LoseDone, RefreshDone, MendDone, after_memory};
ghost use Rattle.calls.specs.History.{asked, Step, served_memory};
ghost use Rattle.calls.specs.Theorem.{Extends, Begun};
ghost use Rattle.engine.specs.Making.{make_answer, make_leaves};

use actions::{
    apply, clear_nodes, fetch_by, fetch_decline, fetch_held, has_room, is_blank, mend_by,
    mend_decline, node_decline, put_decline, set_decline, write_array,
};
use calls::{Answer, Call, CallFault, CallName, Found, Reason};
use code::Code;
use field::NumberedField;
use reading::{Data, check};
use sheet::Record;
use store::Store;

mod make;

pub use make::MakeFault;

// An engine knows its code, and no store: each call is given one.
#[derive(Clone, Copy)]
pub struct Engine<C> {
    code: C,
}

impl<C> Engine<C> {
    // Kept: the two tests of a making stand here too, since they are answered by faults of its own.
    // Makes an engine for a store, and blanks the code's nodes.
    #[tactic(auto, unfolding(crate::specs::Making::make_answer, crate::specs::Making::make_leaves, calls::specs::Calls::fits))]
    pub fn make<F: NumberedField, S: Store<F>>(
        code: C,
        store: &mut S,
    ) -> Result<Engine<C>, MakeFault>
    where
        C: Code<F>,
        ensures answer { result ≡ make_answer F.NumberedField.size (C.Code.code code) (S.Store.meaning store.old) (record { code = code }) }
        ensures leaves { S.Store.meaning store.new ≡ make_leaves F.NumberedField.size (C.Code.code code) (S.Store.meaning store.old) }
        ensures begun { OnOk result (Begun F.Field.ops F.NumberedField.size (C.Code.code code) (S.Store.meaning store.old) (S.Store.meaning store.new)) }
    {
        if F::size() < code.field_size() {
            return Err(MakeFault::SmallField);
        }
        if !has_room(&code, store) {
            return Err(MakeFault::SmallStore);
        }
        clear_nodes(store, code.nodes());
        Ok(Engine { code })
    }

    // How many nodes the array has.
    pub fn nodes<F: NumberedField>(&self) -> usize
    where
        C: Code<F>,
        ensures { result ≡ (C.Code.code self.now.code).nodes }
    {
        self.code.nodes()
    }

    // Writes the whole array over symbols, which are given row by row.
    #[tactic(auto, unfolding(calls::specs::Calls::SetDone, calls::specs::Calls::set_decline, calls::specs::Calls::array_set, calls::specs::Calls::data_of, reading::specs::Tables::laid_out, calls::specs::Calls::suited, calls::specs::Calls::fits, calls::specs::Calls::answered, calls::specs::Calls::unless, actions::specs::Allowing::allowed))]
    pub fn set<F: NumberedField, S: Store<F>>(
        &self,
        store: &mut S,
        symbols: &[F],
    ) -> Result<usize, CallFault>
    where
        C: Code<F>,
        ensures { SetDone F.Field.ops F.NumberedField.size (C.Code.code self.now.code) (S.Store.meaning store.old) symbols.now result (S.Store.meaning store.new) }
    {
        set_decline(&self.code, store, symbols.len()).map_err(|reason| CallFault {
            call: CallName::Set,
            reason,
        })?;
        let data = Data {
            symbols,
            rows: self.code.rows(),
            columns: self.code.columns(),
        };
        write_array(store, &self.code, &data);
        Ok(0)
    }

    // Replaces one data symbol: reads and changes exactly the places of its sheet.
    #[tactic(auto, unfolding(calls::specs::Calls::PutDone, calls::specs::Calls::put_decline, calls::specs::Calls::Sheeted, calls::specs::Calls::suited, calls::specs::Calls::fits, calls::specs::Calls::answered, calls::specs::Calls::unless, actions::specs::Allowing::allowed))]
    pub fn put<F: NumberedField, S: Store<F>>(
        &self,
        store: &mut S,
        row: usize,
        column: usize,
        x: F,
    ) -> Result<usize, CallFault>
    where
        C: Code<F>,
        ensures { PutDone F.Field.ops F.NumberedField.size (C.Code.code self.now.code) (S.Store.meaning store.old) row column x result (S.Store.meaning store.new) }
    {
        put_decline(&self.code, store, row, column).map_err(|reason| CallFault {
            call: CallName::Put,
            reason,
        })?;
        let patch = self.code.put_patch(row, column);
        check(store, &patch, CallName::Put)?;
        Ok(apply(store, &patch, x))
    }

    // The symbol of a data place: read where it is held, and solved by the code where it is blank.
    #[tactic(auto, unfolding(calls::specs::Calls::FetchDone, calls::specs::Calls::FetchedBy, calls::specs::Calls::fetch_decline, calls::specs::Calls::after_memory, calls::specs::Calls::Sheeted, calls::specs::Calls::suited, calls::specs::Calls::fits, calls::specs::Calls::answered, calls::specs::Calls::unless, actions::specs::Allowing::allowed))]
    pub fn fetch<F: NumberedField, S: Store<F>>(
        &self,
        store: &mut S,
        row: usize,
        column: usize,
        memory: &mut [Record<F>],
    ) -> Result<Found<F>, CallFault>
    where
        C: Code<F>,
        ensures done { FetchDone F.Field.ops F.NumberedField.size (C.Code.code self.now.code) (S.Store.meaning store.old) row column (length memory.old) result (S.Store.meaning store.new) }
        ensures memory { memory.new ≡ after_memory F.Field.ops.zero result memory.old }
    {
        fetch_decline(&self.code, store, row, column, memory.len()).map_err(|reason| CallFault {
            call: CallName::Fetch,
            reason,
        })?;
        if is_blank(store, row, column) {
            let plan = self.code.fetch_plan(store, row, column);
            fetch_by(store, &plan, row, memory)
        } else {
            fetch_held(store, row, column, memory)
        }
    }

    // Kept: lose and refresh are two functions, since they make two calls of a store with two meanings.
    // Clears a node.
    #[tactic(auto, unfolding(calls::specs::Calls::LoseDone, calls::specs::Calls::node_decline, calls::specs::Calls::node_meters, calls::specs::Calls::suited, calls::specs::Calls::fits, calls::specs::Calls::answered, calls::specs::Calls::unless, actions::specs::Allowing::allowed))]
    pub fn lose<F: NumberedField, S: Store<F>>(
        &self,
        store: &mut S,
        node: usize,
    ) -> Result<u32, CallFault>
    where
        C: Code<F>,
        ensures { LoseDone F.NumberedField.size (C.Code.code self.now.code) (S.Store.meaning store.old) node result (S.Store.meaning store.new) }
    {
        node_decline(&self.code, store, node).map_err(|reason| CallFault {
            call: CallName::Lose,
            reason,
        })?;
        store.clear(node).map_err(|_| CallFault {
            call: CallName::Lose,
            reason: Reason::SmallStore,
        })
    }

    // Refreshes a node.
    #[tactic(auto, unfolding(calls::specs::Calls::RefreshDone, calls::specs::Calls::node_decline, calls::specs::Calls::node_meters, calls::specs::Calls::suited, calls::specs::Calls::fits, calls::specs::Calls::answered, calls::specs::Calls::unless, actions::specs::Allowing::allowed))]
    pub fn refresh<F: NumberedField, S: Store<F>>(
        &self,
        store: &mut S,
        node: usize,
    ) -> Result<u32, CallFault>
    where
        C: Code<F>,
        ensures { RefreshDone F.NumberedField.size (C.Code.code self.now.code) (S.Store.meaning store.old) node result (S.Store.meaning store.new) }
    {
        node_decline(&self.code, store, node).map_err(|reason| CallFault {
            call: CallName::Refresh,
            reason,
        })?;
        store.refresh(node).map_err(|_| CallFault {
            call: CallName::Refresh,
            reason: Reason::SmallStore,
        })
    }

    // Rewrites a lost node from its read sheet.
    #[tactic(auto, unfolding(calls::specs::Calls::MendDone, calls::specs::Calls::mend_decline, calls::specs::Calls::after_memory, calls::specs::Calls::Sheeted, calls::specs::Calls::suited, calls::specs::Calls::fits, calls::specs::Calls::answered, calls::specs::Calls::unless, actions::specs::Allowing::allowed))]
    pub fn mend<F: NumberedField, S: Store<F>>(
        &self,
        store: &mut S,
        node: usize,
        memory: &mut [Record<F>],
    ) -> Result<usize, CallFault>
    where
        C: Code<F>,
        ensures done { MendDone F.Field.ops F.NumberedField.size (C.Code.code self.now.code) (S.Store.meaning store.old) node (length memory.old) result (S.Store.meaning store.new) }
        ensures memory { memory.new ≡ after_memory F.Field.ops.zero result memory.old }
    {
        mend_decline(&self.code, store, node, memory.len()).map_err(|reason| CallFault {
            call: CallName::Mend,
            reason,
        })?;
        let plan = self.code.mend_plan(store, node);
        mend_by(store, &plan, self.code.rows(), node, memory)
    }

    // Serves one call, and so extends every history.
    // Kept: a match with an arm for each call, since the call comes as a value.
    pub fn serve<F: NumberedField, S: Store<F>>(
        &self,
        store: &mut S,
        call: Call<'_, F>,
        memory: &mut [Record<F>],
    ) -> Result<Answer<F>, CallFault>
    where
        C: Code<F>,
        ensures step { Step F.Field.ops F.NumberedField.size (C.Code.code self.now.code) (asked call.entry) (length memory.old) result (S.Store.meaning store.old) (S.Store.meaning store.new) }
        ensures history { Extends F.Field.ops F.NumberedField.size (C.Code.code self.now.code) (record { ask = asked call.entry; room = length memory.old; answer = result }) (S.Store.meaning store.old) (S.Store.meaning store.new) }
        ensures memory { memory.new ≡ served_memory F.Field.ops.zero (asked call.entry) result memory.old }
    {
        match call {
            Call::Set(symbols) => Ok(Answer::Counted(self.set(store, symbols)?)),
            Call::Put(row, column, x) => Ok(Answer::Counted(self.put(store, row, column, x)?)),
            Call::Fetch(row, column) => {
                let found = self.fetch(store, row, column, memory)?;
                Ok(Answer::Fetched(found.count, found.symbol))
            }
            Call::Lose(node) => Ok(Answer::Cleared(self.lose(store, node)?)),
            Call::Refresh(node) => Ok(Answer::Cleared(self.refresh(store, node)?)),
            Call::Mend(node) => Ok(Answer::Counted(self.mend(store, node, memory)?)),
        }
    }
}
