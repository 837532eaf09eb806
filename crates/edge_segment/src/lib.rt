#![tactic(auto)]
// A line's edge in one segment, as most edges of a part are. Its chain is the two vertices, with range.at(0.0) and range.at(1.0) the way
// round that the line runs: no list of parameters is filled, nothing is thinned or merged, and the edge's extent is not asked for.
ghost use Rattle.std.specs.Prelude.{◌≡◌, true, cond, [], ◌∷◌, ◌≤◌, length, Float};
ghost use Rattle.std.specs.Float.Ieee.{le};
ghost use Rattle.base_lists.specs.Room.{filled};
ghost use Rattle.arith.specs.Notation.{plus_zero};
ghost use Rattle.math.specs.Math.{v_add, v_scale};
ghost use Rattle.brep.specs.Rows.{Tables};
ghost use Rattle.brep.specs.Tree.{CurveTree};
ghost use Rattle.options.specs.Options.{resolve, sag_for, for_extent};
ghost use Rattle.curve_prepared.specs.declared.Prepared.TheVariants.{Line};
ghost use Rattle.curve_prepared.specs.Own.Prepared.{prepared_of};
ghost use Rattle.edge_record.specs.Chain.{shortest, flat};
ghost use Rattle.edge_closed_form.specs.Miss.{worst_miss};
ghost use Rattle.draw_spec.specs.Edge.{edge_curve, edge_start, edge_end, is_reversed};
ghost use Rattle.edge_place.specs.Own.Place.{chord_between};
ghost use Rattle.edge_segment.specs.Own.Segment.{SegmentInto};

use brep::Edge;
use edge_record::Sample;
use math::{Interval, Vec3};
use options::Options;

// Whether a line's middle between two of its points is within the sag of the middle of these, whatever the extent that the sag is for: the
// check of a closed form, which only rounding can make a line fail. No root is taken, and `false` says nothing.
fn meets(origin: Vec3, direction: Vec3, from: Sample, to: Sample, options: Options) -> bool
    requires { (from.point ≡ v_add origin (v_scale direction from.param)) × (to.point ≡ v_add origin (v_scale direction to.param)) }
    ensures { result ≡ true → (c : CurveTree) → prepared_of c ≡ Line origin direction → (extent : Float) → le (worst_miss c plus_zero (from.param ∷ to.param ∷ [])) (sag_for (resolve options) extent) ≡ true }
{
    let t = 0.5 * (from.param + to.param);
    let m = origin.add(direction.scale(t));
    let s = m.sub(from.point.add(to.point).scale(0.5)).length_squared();
    if 0.0 < s {
        // No sag for an extent is below an eighth of the whole model's.
        let least = options.resolve().sag / 8.0;
        return s < least * least;
    }
    // Nothing is missed, or by a NaN, which is passed over.
    true
}

// The chord of the vertices, which are at start and end, with the parameters of two of the line's points the way round that these run.
fn chord_along(start: Vec3, end: Vec3, edge: Edge, from: Sample, to: Sample, chain: &mut [f64])
    requires { shortest ≤ length chain.old }
    ensures { (T : Tables) → start ≡ edge_start T edge → end ≡ edge_end T edge → chain.new ≡ filled (length chain.old)
        (flat (cond (is_reversed T edge from.point to.point) (chord_between start end to.param from.param) (chord_between start end from.param to.param))) }
{
    if edge_place::runs_back(edge, start, end, from.point, to.point) {
        edge_place::chord_between(start, end, to.param, from.param, chain);
    } else {
        edge_place::chord_between(start, end, from.param, to.param, chain);
    }
}

// Draws the edge, whose vertices are at start and end, along a line over a range in one segment, which is all that the options ask
// for, if it is good enough, and says whether it did. It is what sampling would make of it, whatever the edge's extent.
pub fn draw_segment(
    start: Vec3,
    end: Vec3,
    origin: Vec3,
    direction: Vec3,
    edge: Edge,
    range: Interval,
    options: Options,
    chain: &mut [f64],
) -> bool
    requires { (shortest ≤ length chain.old) × (options.segments ≤ 1) }
    ensures { (T : Tables) → start ≡ edge_start T edge → end ≡ edge_end T edge → prepared_of (edge_curve T edge) ≡ Line origin direction
        → (extent : Float) → SegmentInto T edge (for_extent (resolve options) extent) range chain.old result chain.new }
{
    let a = range.at(0.0);
    let b = range.at(1.0);
    let from = Sample {
        point: origin.add(direction.scale(a)),
        param: a,
    };
    let to = Sample {
        point: origin.add(direction.scale(b)),
        param: b,
    };
    if meets(origin, direction, from, to, options) {
        chord_along(start, end, edge, from, to, chain);
        return true;
    }
    false
}
