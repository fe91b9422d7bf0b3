// Copying a node from one store to another: code over any two stores, proved with nothing but what a store means.
#![tactic(auto)]

ghost use Rattle.std.specs.Prelude.{◌≡◌, None};
ghost use Rattle.copying.specs.Copies.{row_fault, copy_fault, answered, drained, filled, moved};

use field::NumberedField;
use store::Store;

mod fault;

pub use fault::CopyFault;

// Whether a row of the node can be copied.
fn ready_row<F: NumberedField, P: Store<F>, Q: Store<F>>(
    from: &P,
    source: usize,
    to: &Q,
    target: usize,
    row: usize,
) -> Result<(), CopyFault>
    ensures { result ≡ answered (row_fault (P.Store.meaning from.now) source (Q.Store.meaning to.now) target row) }
{
    from.probe(row, source).map_err(CopyFault::Source)?;
    to.meter(row, target).map_err(CopyFault::Target)?;
    Ok(())
}

// Whether each row of the node can be copied.
fn ready<F: NumberedField, P: Store<F>, Q: Store<F>>(
    from: &P,
    source: usize,
    to: &Q,
    target: usize,
) -> Result<(), CopyFault>
    ensures { result ≡ answered (copy_fault (P.Store.meaning from.now) source (Q.Store.meaning to.now) target (P.Store.meaning from.now).rows) }
{
    let rows = from.rows();
    for row in 0..rows {
        ready_row(from, source, to, target, row)?;
    }
    Ok(())
}

// Copies each row of a node that is ready.
fn carry<F: NumberedField, P: Store<F>, Q: Store<F>>(
    from: &mut P,
    source: usize,
    to: &mut Q,
    target: usize,
)
    requires { copy_fault (P.Store.meaning from.old) source (Q.Store.meaning to.old) target (P.Store.meaning from.old).rows ≡ None }
    ensures from { P.Store.meaning from.new ≡ drained (P.Store.meaning from.old) source (P.Store.meaning from.old).rows }
    ensures to { Q.Store.meaning to.new ≡ filled (Q.Store.meaning to.old) target (P.Store.meaning from.old).rows (P.Store.meaning from.old) source }
{
    let rows = from.rows();
    for row in 0..rows {
        if let Ok(symbol) = from.read(row, source) {
            let _ = to.write(row, target, symbol);
        }
    }
}

// Copies the node `source` of one store to the node `target` of another, row for row.
pub fn copy_node<F: NumberedField, P: Store<F>, Q: Store<F>>(
    from: &mut P,
    source: usize,
    to: &mut Q,
    target: usize,
) -> Result<(), CopyFault>
    ensures answers { result ≡ answered (copy_fault (P.Store.meaning from.old) source (Q.Store.meaning to.old) target (P.Store.meaning from.old).rows) }
    ensures from { P.Store.meaning from.new ≡ drained (P.Store.meaning from.old) source (moved result (P.Store.meaning from.old).rows) }
    ensures to { Q.Store.meaning to.new ≡ filled (Q.Store.meaning to.old) target (moved result (P.Store.meaning from.old).rows) (P.Store.meaning from.old) source }
{
    ready(from, source, to, target)?;
    carry(from, source, to, target);
    Ok(())
}
