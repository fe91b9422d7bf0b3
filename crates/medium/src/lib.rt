// Memory in which the places of a store lie in a row, and the calls of a store on it.
#![tactic(auto)]

ghost use Rattle.std.specs.Prelude.{◌≡◌, ◌≢◌, ℕ, ◌+◌, ◌-◌, ◌*◌, ◌<◌, ◌≤◌, ◌⊎◌, true, ◌&&◌, List, length, is_ok, is_err, if◌then◌else◌, Some, None, Option, nat_eq, nat_le, nat_lt};
ghost use Rattle.store.specs.Meaning.{blank as fresh, probed, metered, placed, summed, total, read as reads, written, cleared, refreshed};
ghost use Rattle.store.specs.Laid.{laid};
ghost use Rattle.store.specs.Beyond.{Beyond};

use field::NumberedField;
use store::{Shape, StoreFault, judged};

// A way to keep places in memory: each takes the same number of units, and the first lies in the first of them.
pub trait Medium<F: NumberedField> {
    // A unit of the memory.
    type Unit: Copy;

    // The reads that a place stands.
    ghost life: { ℕ };

    // How many units a place takes.
    ghost each: { ℕ };

    // What each place holds.
    ghost symbols: { List Self.Unit → ℕ → Option F };

    // The meter of each place.
    ghost meters: { List Self.Unit → ℕ → ℕ };

    // The count of each place's meter as it stands in memory, where it may be over the life.
    ghost counts: { List Self.Unit → ℕ → ℕ };

    // The rest of each place: its units, with the meter among them at 0.
    ghost rest: { List Self.Unit → ℕ → List Self.Unit };

    // Whether the place is as a new one.
    ghost Bare: { List Self.Unit → ℕ → Type 0 };

    // How many reads a place stands.
    fn life() -> u16
        ensures { result ≡ life };

    // What a place holds.
    fn symbol(units: &[Self::Unit], spot: usize) -> Option<F>
        requires { each * (spot + 1) ≤ length units.now }
        ensures { result ≡ symbols units.now spot };

    // The meter of a place.
    fn meter(units: &[Self::Unit], spot: usize) -> u16
        requires { each * (spot + 1) ≤ length units.now }
        ensures { result ≡ meters units.now spot };

    // Raises the meter of a place by one.
    fn raise(units: &mut [Self::Unit], spot: usize)
        requires lies { each * (spot + 1) ≤ length units.old }
        requires lasts { meters units.old spot ≢ life }
        ensures symbols { (k : ℕ) → symbols units.new k ≡ symbols units.old k }
        ensures meters { (k : ℕ) → meters units.new k ≡ (if nat_eq k spot then meters units.old k + 1 else meters units.old k) }
        ensures counts { (k : ℕ) → counts units.new k ≡ (if nat_eq k spot then counts units.old k + 1 else counts units.old k) }
        ensures rest { (k : ℕ) → rest units.new k ≡ rest units.old k }
        ensures beyond { Beyond (each * (spot + 1)) units.old units.new };

    // Puts a symbol at a place, and leaves its meter.
    fn put(units: &mut [Self::Unit], spot: usize, x: F)
        requires { each * (spot + 1) ≤ length units.old }
        ensures symbols { (k : ℕ) → symbols units.new k ≡ (if nat_eq k spot then Some x else symbols units.old k) }
        ensures meters { (k : ℕ) → meters units.new k ≡ meters units.old k }
        ensures counts { (k : ℕ) → counts units.new k ≡ counts units.old k }
        ensures rest { (k : ℕ) → k ≢ spot → rest units.new k ≡ rest units.old k }
        ensures beyond { Beyond (each * (spot + 1)) units.old units.new };

    // Makes a place as a new one.
    fn blank(units: &mut [Self::Unit], spot: usize)
        requires { each * (spot + 1) ≤ length units.old }
        ensures symbols { (k : ℕ) → symbols units.new k ≡ (if nat_eq k spot then None else symbols units.old k) }
        ensures meters { (k : ℕ) → meters units.new k ≡ (if nat_eq k spot then 0 else meters units.old k) }
        ensures counts { (k : ℕ) → counts units.new k ≡ (if nat_eq k spot then 0 else counts units.old k) }
        ensures rest { (k : ℕ) → k ≢ spot → rest units.new k ≡ rest units.old k }
        ensures bare { (k : ℕ) → ((k ≡ spot) ⊎ Bare units.old k) → Bare units.new k }
        ensures beyond { Beyond (each * (spot + 1)) units.old units.new };

    // Sets the meter of a place to 0, and leaves what it holds.
    fn rewind(units: &mut [Self::Unit], spot: usize)
        requires { each * (spot + 1) ≤ length units.old }
        ensures symbols { (k : ℕ) → symbols units.new k ≡ symbols units.old k }
        ensures meters { (k : ℕ) → meters units.new k ≡ (if nat_eq k spot then 0 else meters units.old k) }
        ensures counts { (k : ℕ) → counts units.new k ≡ (if nat_eq k spot then 0 else counts units.old k) }
        ensures rest { (k : ℕ) → rest units.new k ≡ rest units.old k }
        ensures beyond { Beyond (each * (spot + 1)) units.old units.new };
}

// The sum of the meters of the places from `start` on and below `end`.
fn worn<F: NumberedField, M: Medium<F>>(units: &[M::Unit], start: usize, end: usize) -> u32
    requires lies { M.each * end ≤ length units.now }
    requires few { (start ≤ end) × (end ≤ start + 32) }
    ensures { result ≡ total (λ k. M.meters units.now (start + k)) (end - start) }
{
    let mut sum = 0;
    for spot in start..end {
        sum += u32::from(M::meter(units, spot));
    }
    sum
}

// Kept: `worn`, `blank` and `rewind` are three loops, since each asks another thing of a place and says another thing of the run.
// Makes the places from `start` on and below `end` as new ones.
fn blank<F: NumberedField, M: Medium<F>>(units: &mut [M::Unit], start: usize, end: usize)
    requires lies { M.each * end ≤ length units.old }
    requires run { start ≤ end }
    ensures symbols { (k : ℕ) → M.symbols units.new k ≡ (if nat_le start k && nat_lt k end then None else M.symbols units.old k) }
    ensures meters { (k : ℕ) → M.meters units.new k ≡ (if nat_le start k && nat_lt k end then 0 else M.meters units.old k) }
    ensures counts { (k : ℕ) → M.counts units.new k ≡ (if nat_le start k && nat_lt k end then 0 else M.counts units.old k) }
    ensures rest { (k : ℕ) → ((k < start) ⊎ (end ≤ k)) → M.rest units.new k ≡ M.rest units.old k }
    ensures bare { (k : ℕ) → start ≤ k → k < end → M.Bare units.new k }
    ensures beyond { Beyond (M.each * end) units.old units.new }
{
    for spot in start..end {
        M::blank(units, spot);
    }
}

// Sets the meters of the places from `start` on and below `end` to 0.
fn rewind<F: NumberedField, M: Medium<F>>(units: &mut [M::Unit], start: usize, end: usize)
    requires lies { M.each * end ≤ length units.old }
    requires run { start ≤ end }
    ensures symbols { (k : ℕ) → M.symbols units.new k ≡ M.symbols units.old k }
    ensures meters { (k : ℕ) → M.meters units.new k ≡ (if nat_le start k && nat_lt k end then 0 else M.meters units.old k) }
    ensures counts { (k : ℕ) → M.counts units.new k ≡ (if nat_le start k && nat_lt k end then 0 else M.counts units.old k) }
    ensures rest { (k : ℕ) → M.rest units.new k ≡ M.rest units.old k }
    ensures beyond { Beyond (M.each * end) units.old units.new }
{
    for spot in start..end {
        M::rewind(units, spot);
    }
}

// Kept: here and below the memory and the shape are two arguments, since a store lends its memory anew for each call, as `&` or as `&mut`.

// Makes all places of a store as new ones.
pub fn make<F: NumberedField, M: Medium<F>>(units: &mut [M::Unit], shape: Shape)
    requires { M.each * (shape.rows * shape.nodes) ≤ length units.old }
    ensures leaves { laid shape.rows shape.nodes M.life (M.symbols units.new) (M.meters units.new) ≡ fresh F shape.rows shape.nodes M.life }
    ensures counts { (k : ℕ) → M.counts units.new k ≡ (if nat_lt k (shape.rows * shape.nodes) then 0 else M.counts units.old k) }
    ensures rest { (k : ℕ) → shape.rows * shape.nodes ≤ k → M.rest units.new k ≡ M.rest units.old k }
    ensures bare { (k : ℕ) → k < shape.rows * shape.nodes → M.Bare units.new k }
    ensures beyond { Beyond (M.each * (shape.rows * shape.nodes)) units.old units.new }
{
    blank::<F, M>(units, 0, shape.rows * shape.nodes);
}

// The symbol of a place; declined off the store, at a blank place and at a worn one, in this order.
pub fn probe<F: NumberedField, M: Medium<F>>(
    units: &[M::Unit],
    shape: Shape,
    row: usize,
    node: usize,
) -> Result<F, StoreFault>
    requires { M.each * (shape.rows * shape.nodes) ≤ length units.now }
    ensures { result ≡ probed (laid shape.rows shape.nodes M.life (M.symbols units.now) (M.meters units.now)) row node }
{
    let spot = shape.spot(row, node)?;
    judged(
        M::symbol(units, spot),
        M::meter(units, spot),
        M::life(),
        row,
        node,
    )
}

// The meter of a place; declined off the store.
pub fn meter<F: NumberedField, M: Medium<F>>(
    units: &[M::Unit],
    shape: Shape,
    row: usize,
    node: usize,
) -> Result<u16, StoreFault>
    requires { M.each * (shape.rows * shape.nodes) ≤ length units.now }
    ensures { result ≡ metered (laid shape.rows shape.nodes M.life (M.symbols units.now) (M.meters units.now)) row node }
{
    let spot = shape.spot(row, node)?;
    Ok(M::meter(units, spot))
}

// Answers as `probe` does; where that is a symbol, the meter is raised by one.
pub fn read<F: NumberedField, M: Medium<F>>(
    units: &mut [M::Unit],
    shape: Shape,
    row: usize,
    node: usize,
) -> Result<F, StoreFault>
    requires { M.each * (shape.rows * shape.nodes) ≤ length units.old }
    ensures answers { result ≡ probed (laid shape.rows shape.nodes M.life (M.symbols units.old) (M.meters units.old)) row node }
    ensures leaves { laid shape.rows shape.nodes M.life (M.symbols units.new) (M.meters units.new) ≡ reads (laid shape.rows shape.nodes M.life (M.symbols units.old) (M.meters units.old)) row node }
    ensures counts { (k : ℕ) → M.counts units.new k ≡ (if is_ok result && nat_eq k (shape.rows * node + row) then M.counts units.old k + 1 else M.counts units.old k) }
    ensures rest { (k : ℕ) → M.rest units.new k ≡ M.rest units.old k }
    ensures declined { is_err result ≡ true → units.new ≡ units.old }
    ensures beyond { Beyond (M.each * (shape.rows * shape.nodes)) units.old units.new }
{
    let x = probe::<F, M>(units, shape, row, node)?;
    M::raise(units, shape.rows * node + row);
    Ok(x)
}

// Puts a symbol at a place and leaves all meters; declined off the store.
pub fn write<F: NumberedField, M: Medium<F>>(
    units: &mut [M::Unit],
    shape: Shape,
    row: usize,
    node: usize,
    x: F,
) -> Result<(), StoreFault>
    requires { M.each * (shape.rows * shape.nodes) ≤ length units.old }
    ensures answers { result ≡ placed (laid shape.rows shape.nodes M.life (M.symbols units.old) (M.meters units.old)) row node }
    ensures leaves { laid shape.rows shape.nodes M.life (M.symbols units.new) (M.meters units.new) ≡ written (laid shape.rows shape.nodes M.life (M.symbols units.old) (M.meters units.old)) row node x }
    ensures counts { (k : ℕ) → M.counts units.new k ≡ M.counts units.old k }
    ensures rest { (k : ℕ) → k ≢ shape.rows * node + row → M.rest units.new k ≡ M.rest units.old k }
    ensures declined { is_err result ≡ true → units.new ≡ units.old }
    ensures beyond { Beyond (M.each * (shape.rows * shape.nodes)) units.old units.new }
{
    let spot = shape.spot(row, node)?;
    M::put(units, spot, x);
    Ok(())
}

// Makes a node as a new one, and answers the former sum of its meters; declined off the store.
pub fn clear<F: NumberedField, M: Medium<F>>(
    units: &mut [M::Unit],
    shape: Shape,
    node: usize,
) -> Result<u32, StoreFault>
    requires { M.each * (shape.rows * shape.nodes) ≤ length units.old }
    ensures answers { result ≡ summed (laid shape.rows shape.nodes M.life (M.symbols units.old) (M.meters units.old)) node }
    ensures leaves { laid shape.rows shape.nodes M.life (M.symbols units.new) (M.meters units.new) ≡ cleared (laid shape.rows shape.nodes M.life (M.symbols units.old) (M.meters units.old)) node }
    ensures counts { (k : ℕ) → M.counts units.new k ≡ (if is_ok result && (nat_le (shape.rows * node) k && nat_lt k (shape.rows * node + shape.rows)) then 0 else M.counts units.old k) }
    ensures rest { (k : ℕ) → ((k < shape.rows * node) ⊎ (shape.rows * node + shape.rows ≤ k)) → M.rest units.new k ≡ M.rest units.old k }
    ensures declined { is_err result ≡ true → units.new ≡ units.old }
    ensures bare { is_ok result ≡ true → (k : ℕ) → shape.rows * node ≤ k → k < shape.rows * node + shape.rows → M.Bare units.new k }
    ensures beyond { Beyond (M.each * (shape.rows * shape.nodes)) units.old units.new }
{
    let start = shape.spot(0, node)?;
    let end = start + shape.rows;
    let sum = worn::<F, M>(units, start, end);
    blank::<F, M>(units, start, end);
    Ok(sum)
}

// Sets the meters of a node to 0 and answers their former sum; declined off the store.
// Kept: beside `clear`, since it leaves another meaning.
pub fn refresh<F: NumberedField, M: Medium<F>>(
    units: &mut [M::Unit],
    shape: Shape,
    node: usize,
) -> Result<u32, StoreFault>
    requires { M.each * (shape.rows * shape.nodes) ≤ length units.old }
    ensures answers { result ≡ summed (laid shape.rows shape.nodes M.life (M.symbols units.old) (M.meters units.old)) node }
    ensures leaves { laid shape.rows shape.nodes M.life (M.symbols units.new) (M.meters units.new) ≡ refreshed (laid shape.rows shape.nodes M.life (M.symbols units.old) (M.meters units.old)) node }
    ensures counts { (k : ℕ) → M.counts units.new k ≡ (if is_ok result && (nat_le (shape.rows * node) k && nat_lt k (shape.rows * node + shape.rows)) then 0 else M.counts units.old k) }
    ensures rest { (k : ℕ) → M.rest units.new k ≡ M.rest units.old k }
    ensures declined { is_err result ≡ true → units.new ≡ units.old }
    ensures beyond { Beyond (M.each * (shape.rows * shape.nodes)) units.old units.new }
{
    let start = shape.spot(0, node)?;
    let end = start + shape.rows;
    let sum = worn::<F, M>(units, start, end);
    rewind::<F, M>(units, start, end);
    Ok(sum)
}
