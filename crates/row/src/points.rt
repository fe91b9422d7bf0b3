// Points of the field at which values are known, and Lagrange's formula over them.
ghost use Rattle.std.specs.Prelude.{◌≡◌, ℕ, ◌<◌, length, map, cond, nat_lt, slice_index_or};
ghost use Rattle.std.specs.List.{range_with_len};
ghost use Rattle.row.specs.RowRule.{stands, points as points_at};
ghost use Rattle.row.specs.Interpolation.{others, basis, interpolate};

use crate::numbered;
use field::{Field, NumberedField};

// Points of the field, by index.
pub trait Points<F> {
    ghost count: { Self → ℕ };

    ghost point: { Self → ℕ → F };

    // How many points there are.
    fn len(&self) -> usize
        ensures { result ≡ count self.now };

    // The point at an index.
    fn point(&self, l: usize) -> F
        requires { l < count self.now }
        ensures { result ≡ point self.now l };
}

// The symbols numbered 0, .., count - 1.
#[derive(Clone, Copy)]
pub struct FirstSymbols {
    pub count: usize,
}

impl<F: NumberedField> Points<F> for FirstSymbols {
    ghost count = { λ s. s.count };

    ghost point = { λ s. stands F.Field.ops F.symbol };

    fn len(&self) -> usize {
        self.count
    }

    fn point(&self, l: usize) -> F {
        numbered(l)
    }
}

// The symbols with the listed numbers.
#[derive(Clone, Copy)]
pub struct ListedSymbols<'a> {
    pub numbers: &'a [usize],
}

impl<'a, F: NumberedField> Points<F> for ListedSymbols<'a> {
    ghost count = { λ s. length s.numbers.now };

    ghost point = { λ s. points_at F.Field.ops F.symbol s.numbers.now };

    fn len(&self) -> usize {
        self.numbers.len()
    }

    fn point(&self, l: usize) -> F {
        numbered(self.numbers[l])
    }
}

// The product of `x` less each of the points but the one at `skipped`.
// Kept: points are computed by their index, and no slice of them exists.
#[tactic(auto, using(crate::proofs::Lagrange::others_skip, crate::proofs::Lagrange::others_more))]
pub fn others<F: Field, P: Points<F>>(points: &P, skipped: usize, x: F) -> F
    ensures { result ≡ others F.ops (P.point points.now) (P.count points.now) skipped x }
{
    let mut result = F::one();
    for m in 0..points.len() {
        if m != skipped {
            result = result.product(x.difference(points.point(m)));
        }
    }
    result
}

// What the value at the point at `l` counts at `x`: one at that point, and zero at the others.
pub fn basis<F: Field, P: Points<F>>(points: &P, l: usize, x: F) -> F
    requires { l < P.count points.now }
    ensures { result ≡ basis F.ops (P.point points.now) (P.count points.now) l x }
{
    let above = others(points, l, x);
    let below = others(points, l, points.point(l));
    above.product(below.inverse())
}

// Kept: the values lie in a slice, and each point is computed by its index.
// Lagrange's formula: the value at `x` of the polynomial that has the values at the points.
pub fn interpolate<F: Field, P: Points<F>>(points: &P, values: &[F], x: F) -> F
    requires { P.count points.now ≡ length values.now }
    ensures { result ≡ interpolate F.ops (P.point points.now) (P.count points.now) (λ l. slice_index_or values.now l F.ops.zero) x }
{
    let mut total = F::zero();
    for (l, given) in values.iter().enumerate() {
        total = total.sum(given.product(basis(points, l, x)));
    }
    total
}

// What the value at the point at `l` counts at number m; an index past the points counts nothing.
fn weight_at<F: NumberedField, P: Points<F>>(points: &P, l: usize, m: usize) -> F
    ensures { result ≡ cond (nat_lt l (P.count points.now)) (basis F.Field.ops (P.point points.now) (P.count points.now) l (stands F.Field.ops F.symbol m)) F.Field.ops.zero }
{
    if l < points.len() {
        basis(points, l, numbered(m))
    } else {
        F::zero()
    }
}

// Stores what the value at each point counts at number m; past the points, zero.
pub(crate) fn fill_weights<F: NumberedField, P: Points<F>>(points: &P, m: usize, out: &mut [F])
    ensures { out.new ≡ map (λ l. cond (nat_lt l (P.count points.now)) (basis F.Field.ops (P.point points.now) (P.count points.now) l (stands F.Field.ops F.symbol m)) F.Field.ops.zero) (range_with_len 0 (length out.old)) }
{
    for (l, place) in out.iter_mut().enumerate() {
        *place = weight_at(points, l, m);
    }
}
