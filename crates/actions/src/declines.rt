// Why a call is declined before its sheet is looked at. These change nothing.
ghost use Rattle.std.specs.Prelude.{◌≡◌, ◌<◌, ◌≤◌, true, None};
ghost use Rattle.store.specs.Meaning.{on};
ghost use Rattle.code.specs.Codes.{is_blank};
ghost use Rattle.calls.specs.Calls.{fits, suited, any_blank, set_decline, node_decline, put_decline, fetch_decline, mend_decline};
ghost use Rattle.actions.specs.Allowing.{allowed};

use calls::Reason;
use code::Code;
use field::NumberedField;
use store::{Cause, Store, StoreFault};

// Whether a store has the rows and nodes that the code wants.
#[tactic(auto, unfolding(calls::specs::Calls::fits))]
pub fn has_room<F: NumberedField, S: Store<F>, C: Code<F>>(code: &C, store: &S) -> bool
    ensures { result ≡ fits (C.Code.code code.now) (S.Store.meaning store.now) }
{
    code.rows() <= store.rows() && code.nodes() <= store.nodes()
}

// A field, and then a store, that is too small for the code.
#[tactic(auto, unfolding(calls::specs::Calls::suited, crate::specs::Allowing::allowed))]
fn suits<F: NumberedField, S: Store<F>, C: Code<F>>(code: &C, store: &S) -> Result<(), Reason>
    ensures { result ≡ allowed (suited F.NumberedField.size (C.Code.code code.now) (S.Store.meaning store.now) None) }
{
    if F::size() < code.field_size() {
        return Err(Reason::SmallField);
    }
    if !has_room(code, store) {
        return Err(Reason::SmallStore);
    }
    Ok(())
}

#[tactic(auto, unfolding(calls::specs::Calls::set_decline, calls::specs::Calls::suited, crate::specs::Allowing::allowed))]
pub fn set_decline<F: NumberedField, S: Store<F>, C: Code<F>>(
    code: &C,
    store: &S,
    length: usize,
) -> Result<(), Reason>
    ensures { result ≡ allowed (set_decline F.NumberedField.size (C.Code.code code.now) (S.Store.meaning store.now) length) }
{
    suits(code, store)?;
    if length != code.rows() * code.columns() {
        return Err(Reason::WrongLength);
    }
    Ok(())
}

#[tactic(auto, unfolding(calls::specs::Calls::node_decline, calls::specs::Calls::suited, crate::specs::Allowing::allowed))]
pub fn node_decline<F: NumberedField, S: Store<F>, C: Code<F>>(
    code: &C,
    store: &S,
    node: usize,
) -> Result<(), Reason>
    ensures { result ≡ allowed (node_decline F.NumberedField.size (C.Code.code code.now) (S.Store.meaning store.now) node) }
{
    suits(code, store)?;
    if node >= code.nodes() {
        return Err(Reason::OutOfRange);
    }
    Ok(())
}

#[tactic(auto, unfolding(calls::specs::Calls::put_decline, calls::specs::Calls::suited, crate::specs::Allowing::allowed))]
pub fn put_decline<F: NumberedField, S: Store<F>, C: Code<F>>(
    code: &C,
    store: &S,
    row: usize,
    column: usize,
) -> Result<(), Reason>
    ensures { result ≡ allowed (put_decline F.NumberedField.size (C.Code.code code.now) (S.Store.meaning store.now) row column) }
{
    suits(code, store)?;
    if row >= code.rows() || column >= code.columns() {
        return Err(Reason::OutOfRange);
    }
    Ok(())
}

#[tactic(auto, unfolding(calls::specs::Calls::fetch_decline, calls::specs::Calls::put_decline, calls::specs::Calls::suited, crate::specs::Allowing::allowed))]
pub fn fetch_decline<F: NumberedField, S: Store<F>, C: Code<F>>(
    code: &C,
    store: &S,
    row: usize,
    column: usize,
    room: usize,
) -> Result<(), Reason>
    ensures { result ≡ allowed (fetch_decline F.NumberedField.size (C.Code.code code.now) (S.Store.meaning store.now) row column room) }
{
    put_decline(code, store, row, column)?;
    if room < code.fetch_room() {
        return Err(Reason::ShortMemory);
    }
    Ok(())
}

#[tactic(auto, unfolding(calls::specs::Calls::mend_decline, calls::specs::Calls::node_decline, calls::specs::Calls::lost, calls::specs::Calls::fits, calls::specs::Calls::suited, crate::specs::Allowing::allowed))]
pub fn mend_decline<F: NumberedField, S: Store<F>, C: Code<F>>(
    code: &C,
    store: &S,
    node: usize,
    room: usize,
) -> Result<(), Reason>
    ensures { result ≡ allowed (mend_decline F.NumberedField.size (C.Code.code code.now) (S.Store.meaning store.now) node room) }
{
    node_decline(code, store, node)?;
    if room < code.mend_room(node) {
        return Err(Reason::ShortMemory);
    }
    if !has_blank(store, node, code.rows()) {
        return Err(Reason::NotLost);
    }
    Ok(())
}

// Whether a place of the store is blank.
#[tactic(auto, unfolding(code::specs::Codes::is_blank))]
pub fn is_blank<F: NumberedField, S: Store<F>>(store: &S, row: usize, node: usize) -> bool
    requires { on (S.Store.meaning store.now) row node ≡ true }
    ensures { result ≡ is_blank ((S.Store.meaning store.now).symbol row node) }
{
    matches!(
        store.probe(row, node),
        Err(StoreFault {
            cause: Cause::Blank,
            ..
        })
    )
}

// Whether a node has a blank place in the rows below a number.
// Kept: a loop, since a closure for `any` would ask again that each place is on the store.
#[tactic(auto, using(crate::proofs::Declining::blank_found), unfolding(calls::specs::Calls::any_blank))]
fn has_blank<F: NumberedField, S: Store<F>>(store: &S, node: usize, rows: usize) -> bool
    requires { (rows ≤ (S.Store.meaning store.now).rows) × (node < (S.Store.meaning store.now).nodes) }
    ensures { result ≡ any_blank (S.Store.meaning store.now) node rows }
{
    for row in 0..rows {
        if is_blank(store, row, node) {
            return true;
        }
    }
    false
}
