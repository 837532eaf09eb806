#![tactic(auto)]
// edge_extent of edge.rs, on rows.
ghost use Rattle.std.specs.Prelude.{◌≡◌, true, cond, T, Float};
ghost use Rattle.std.specs.Float.Ieee.{le};
ghost use Rattle.arith.specs.Notation.{◌⊕◌, ◌⊗◌};
ghost use Rattle.math.specs.declared.Vec3.{Vec3};
ghost use Rattle.math.specs.Math.{v_finite, add_point};
ghost use Rattle.brep.specs.Rows.{lent};
ghost use Rattle.brep.specs.Tree.{CurveTree, tree};
ghost use Rattle.curve.specs.Eval.{point_at};
ghost use Rattle.curve_prepared.specs.declared.Prepared.TheVariants.{Line};
ghost use Rattle.curve_prepared.specs.Own.Prepared.{prepared_of};
ghost use Rattle.curve_prepared.specs.Own.PreparedCurve.{curve_of};
ghost use Rattle.edge_range.specs.Usable.{usable_range};
ghost use Rattle.draw_spec.specs.Edge.{probed, extent_box, edge_extent};

use brep::{Edge, LentTables};
use curve_prepared::{Prepared, PreparedCurve};
use math::{Aabb, Interval, Vec3};

// The range is probed at each eighth, both ends included: nine probes, from 0 on.
const LAST_PROBE: u32 = 8;

const EIGHTHS: f64 = 8.0;

// A point that is not finite leaves the box as it is, and so does one inside it, as most are.
fn add_finite(b: Aabb, p: Vec3) -> Aabb
    ensures { result ≡ cond (v_finite p) (add_point b p) b }
{
    if b.min.x <= p.x
        && p.x <= b.max.x
        && b.min.y <= p.y
        && p.y <= b.max.y
        && b.min.z <= p.z
        && p.z <= b.max.z
    {
        return b;
    }
    add_outside(b, p)
}

// The box with a point that may lie outside it, or may not be finite.
fn add_outside(b: Aabb, p: Vec3) -> Aabb
    ensures { result ≡ cond (v_finite p) (add_point b p) b }
{
    if p.is_finite() {
        return b.add_point(p);
    }
    b
}

// 2^60: between ends up to it the probes' parameters rise (`rises` in crates/arith_order/proofs/Modest.antt).
const MODEST: f64 = 1152921504606846976.0;

// Whether o + d * t is from low to high for every t from first to last, by those two: it rises or falls with t. `false` says nothing.
fn is_between(o: f64, d: f64, first: f64, last: f64, low: f64, high: f64) -> bool
    ensures { result ≡ true → (t : Float) → T (le first t) → T (le t last) → (le low (o ⊕ d ⊗ t) ≡ true) × (le (o ⊕ d ⊗ t) high ≡ true) }
{
    let p = o + d * first;
    let q = o + d * last;
    // Where a sum is finite, so are its parts.
    if arith::is_finite(p)
        && arith::is_finite(q)
        && low <= p
        && p <= high
        && low <= q
        && q <= high
    {
        return true;
    }
    false
}

// Whether all the probes of a line lie inside the box, by the first and the last of them. `false` says nothing.
fn is_line_inside(origin: Vec3, direction: Vec3, range: Interval, b: Aabb) -> bool
    ensures { result ≡ true → (c : CurveTree) → prepared_of c ≡ Line origin direction → b ≡ probed c range b 9 }
{
    let lo = range.lo;
    let hi = range.hi;
    if -MODEST <= lo && lo <= hi && hi <= MODEST {
        let first = range.at(0.0);
        let last = range.at(1.0);
        if is_between(origin.x, direction.x, first, last, b.min.x, b.max.x)
            && is_between(origin.y, direction.y, first, last, b.min.y, b.max.y)
            && is_between(origin.z, direction.z, first, last, b.min.z, b.max.z)
        {
            return true;
        }
    }
    false
}

// The box with the points that a curve has, by `point`, at each eighth of a range. The number i is of the formula, and no index.
#[tactic(auto, unfolding(draw_spec::specs::Edge::probed))]
fn probe_each<F: Fn(f64) -> Vec3>(point: F, range: Interval, b: Aabb) -> Aabb
    requires { F.IsAlwaysCallable point }
    ensures { (c : CurveTree) → ((t : Float) (p : Vec3) → F.post point t p → p ≡ point_at c t) → result ≡ probed c range b 9 }
{
    let mut found = b;
    for i in 0..=LAST_PROBE {
        found = add_finite(found, point(range.at(i as f64 / EIGHTHS)));
    }
    found
}

// The box with the curve's points at each eighth of a range. A line's are worked out in place: a call for each would cost more.
fn probe(curve: &PreparedCurve<'_>, range: Interval, b: Aabb) -> Aabb
    ensures { result ≡ probed (curve_of curve.now) range b 9 }
{
    if let Prepared::Line { origin, direction } = curve.prepared {
        if is_line_inside(origin, direction, range, b) {
            return b;
        }
        return probe_each(move |t| origin.add(direction.scale(t)), range, b);
    }
    probe_each(|t| curve.point(t), range, b)
}

// A curve with no usable range is not probed: the vertices are all there is.
#[tactic(auto, using(crate::proofs::Laws::of_row), unfolding(draw_spec::specs::Edge::extent_box))]
fn extent_box(tables: &LentTables<'_>, row: u32, usable: Option<Interval>, b: Aabb) -> Aabb
    ensures { result ≡ extent_box (tree (lent tables.now) row) usable b }
{
    match usable {
        Some(range) => probe(&PreparedCurve::new(tables, row), range, b),
        None => b,
    }
}

// The longest side of the box of the vertices and the probes, where the usable range is known. Stays: no `Drawing`, which asks that the
// curve's knots can be sorted, where this asks nothing of the curve.
#[tactic(auto, using(math::proofs::Constants::empty_is), unfolding(draw_spec::specs::Edge::edge_extent))]
pub fn extent_usable(tables: &LentTables<'_>, edge: Edge, usable: Option<Interval>) -> f64
    requires { usable ≡ usable_range (tree (lent tables.now) edge.curve) edge.range }
    ensures { result ≡ edge_extent (lent tables.now) edge }
{
    let start = brep::point(tables.points, edge.start);
    let end = brep::point(tables.points, edge.end);
    let vertices = Aabb::EMPTY.add_point(start).add_point(end);
    let row = edge.curve;
    let b = extent_box(tables, row, usable, vertices);
    let size = b.size();
    arith::max(arith::max(size.x, size.y), size.z)
}

// The extent of an edge, whose usable range is worked out first.
pub fn edge_extent(tables: &LentTables<'_>, edge: Edge) -> f64
    ensures { result ≡ edge_extent (lent tables.now) edge }
{
    let usable = edge_range::usable_range(tables, edge.curve, edge.range);
    extent_usable(tables, edge, usable)
}
