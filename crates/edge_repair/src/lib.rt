#![tactic(auto)]
// repair_runaway of edge.rs: a chain that leaves the reference box is drawn another way, into the second buffer.
ghost use Rattle.std.specs.Prelude.{◌≡◌, true, [], ◌*◌, ◌≤◌, length, Float};
ghost use Rattle.std.specs.Float.Ieee.{le};
ghost use Rattle.base_lists.specs.Room.{filled};
ghost use Rattle.arith.specs.Notation.{plus_zero};
ghost use Rattle.brep.specs.Rows.{lent};
ghost use Rattle.curve.specs.Eval.{natural_range};
ghost use Rattle.options.specs.declared.Resolved.{Resolved};
ghost use Rattle.edge_params.specs.Work.{within};
ghost use Rattle.edge_record.specs.Chain.{width, shortest, flat, samples};
ghost use Rattle.draw_spec.specs.Edge.{discretised};
ghost use Rattle.edge_drawing.specs.Own.Drawing.{drawn_curve};
ghost use Rattle.edge_drawing.specs.Range.{with_range};
ghost use Rattle.draw_spec.specs.Repair.{by, reference, escapes, runaway, serves, arc_or_chord, short_range, has_short_arc, short_arc_tried, by_short_arc, by_complement, stays, repaired};
ghost use Rattle.draw_spec.specs.Draw.{in_first};
ghost use Rattle.edge_place.specs.Own.Place.{of_points, chord_between};
ghost use Rattle.edge_record.specs.Own.Records.{records_of};
ghost use Rattle.edge_repair.specs.Own.Buffers.{room_in};
ghost use Rattle.edge_repair.specs.Own.Redrawn.{RedrawnChain, InSecond, RedrawnInto, DrawnIn};

use brep::Edge;
pub use buffers::Buffers;
use draw_spec::{Drawn, Way};
use edge_drawing::{Drawing, Plan};
use edge_record::WIDTH;
use edge_short_arc::ArcTest;
use math::{Aabb, Interval, Vec3};
use refusal::Refusal;

mod buffers;

// The box that the caller gives.
fn reference(points: &[f64], edge: Edge) -> Aabb
    ensures { result ≡ reference (of_points points.now) edge }
{
    Aabb {
        min: brep::point(points, edge.low),
        max: brep::point(points, edge.high),
    }
}

// The chord of the vertices in the second buffer. Its parameters are lo twice: it runs through nothing of the curve.
fn runaway(drawing: &Drawing<'_>, second: &mut [f64]) -> Result<Drawn, Refusal>
    requires { shortest ≤ length second.old }
    ensures { InSecond (runaway (of_points drawing.now.tables.now.points.now) drawing.now.edge) (length second.old) result second.new }
{
    let points = drawing.tables.points;
    let edge = drawing.edge;
    edge_place::chord(points, edge, edge.range.lo, edge.range.lo, second);
    Ok(Drawn {
        way: Way::Runaway,
        count: 2,
    })
}

// Whether an arc stays inside and reaches both vertices: one walk over it.
fn serves(plan: &Plan<'_>, chain: &[f64]) -> bool
    ensures { result ≡ serves (of_points plan.now.drawing.now.tables.now.points.now) plan.now.drawing.now.edge plan.now.options (records_of chain.now) }
{
    let points = plan.drawing.tables.points;
    let edge = plan.drawing.edge;
    let start = brep::point(points, edge.start);
    let end = brep::point(points, edge.end);
    ArcTest::new(reference(points, edge), edge, plan.options, start, end).serves(chain)
}

// The arc in the second buffer where it serves, else the chord. Stays: the buffer is lent whole, with the arc's count beside it, since the
// chord is written over the arc.
fn arc_or_chord(plan: &Plan<'_>, second: &mut [f64], n: usize) -> Result<Drawn, Refusal>
    requires { (shortest ≤ length second.old) × (width * n ≤ length second.old) × (second.old ≡ filled (length second.old) (flat (samples n second.old))) }
    ensures { InSecond (arc_or_chord (of_points plan.now.drawing.now.tables.now.points.now) plan.now.drawing.now.edge plan.now.options (samples n second.old)) (length second.old) result second.new }
{
    if serves(plan, &second[..WIDTH * n]) {
        return Ok(Drawn {
            way: Way::ShortArc,
            count: n,
        });
    }
    runaway(plan.drawing, second)
}

// From the parameter nearest to one vertex to that nearest to the other.
fn short_range(drawing: &Drawing<'_>) -> Interval
    ensures { result ≡ short_range (lent drawing.now.tables.now) drawing.now.edge }
{
    let tables = drawing.tables;
    let edge = drawing.edge;
    let start = brep::point(tables.points, edge.start);
    let end = brep::point(tables.points, edge.end);
    let w = edge_escape::nearest(tables, edge.curve, start, end);
    if w.start <= w.end {
        return Interval {
            lo: w.start,
            hi: w.end,
        };
    }
    Interval {
        lo: w.end,
        hi: w.start,
    }
}

// Draws the edge over another range, into the second buffer, and clears the first.
fn redraw(plan: &Plan<'_>, range: Interval, buffers: &mut Buffers<'_>) -> Result<usize, Refusal>
    ensures { RedrawnChain (within (room_in buffers.old) (discretised plan.now.drawing.now.mode (lent plan.now.drawing.now.tables.now) (with_range plan.now.drawing.now.edge range) plan.now.options)) buffers.old result buffers.new }
{
    let drawing = plan.drawing.with_range(range);
    let other = Plan {
        drawing: &drawing,
        options: plan.options,
    };
    edge_discretise::discretise(&other, buffers.second, buffers.first)
}

// The short arc, whose range is known, drawn and tried; else the chord.
fn draw_short(plan: &Plan<'_>, short: Interval, buffers: &mut Buffers<'_>) -> Result<Drawn, Refusal>
    requires { (has_short_arc (lent plan.now.drawing.now.tables.now) plan.now.drawing.now.edge ≡ true) × (short ≡ short_range (lent plan.now.drawing.now.tables.now) plan.now.drawing.now.edge) }
    ensures { RedrawnInto (short_arc_tried plan.now.drawing.now.mode (lent plan.now.drawing.now.tables.now) plan.now.drawing.now.edge plan.now.options) buffers.old result buffers.new }
{
    let n = redraw(plan, short, buffers)?;
    arc_or_chord(plan, buffers.second, n)
}

// The arc between the parameters at which the vertices sit, drawn and tried; else the chord. The curve's natural range is known, and that
// nothing in it is too far to be asked for.
fn try_short_arc(
    plan: &Plan<'_>,
    natural: Interval,
    buffers: &mut Buffers<'_>,
) -> Result<Drawn, Refusal>
    requires { natural ≡ natural_range (drawn_curve plan.now.drawing.now) }
    ensures { RedrawnInto (short_arc_tried plan.now.drawing.now.mode (lent plan.now.drawing.now.tables.now) plan.now.drawing.now.edge plan.now.options) buffers.old result buffers.new }
{
    let span = natural.span();
    if arith::is_finite(span) && 0.0 < span {
        let short = short_range(plan.drawing);
        if 0.0 < short.span() {
            return draw_short(plan, short, buffers);
        }
    }
    base_lists::clear_from(buffers.first, 0);
    runaway(plan.drawing, buffers.second)
}

// Where the range itself ran away: the curve is swept for the parameters at which the vertices sit, unless that would ask for one that is too far.
fn by_short_arc(plan: &Plan<'_>, buffers: &mut Buffers<'_>) -> Result<Drawn, Refusal>
    ensures { RedrawnInto (by_short_arc plan.now.drawing.now.mode (lent plan.now.drawing.now.tables.now) plan.now.drawing.now.edge plan.now.options) buffers.old result buffers.new }
{
    let tables = plan.drawing.tables;
    let row = plan.drawing.edge.curve;
    let natural = curve::natural_range(tables, row);
    if edge_asks::sweep_far(tables.curves, tables.parts, tables.ranges, row, natural) {
        base_lists::clear_from(buffers.first, 0);
        base_lists::clear_from(buffers.second, 0);
        return Err(Refusal::TooFar);
    }
    try_short_arc(plan, natural, buffers)
}

// Whether the arc of n records in the second buffer leaves the reference box. Stays: here and in `stays` the count goes beside the buffers, since a
// part of a buffer that is lent from a `&mut Buffers` itself leaves no more of that buffer known than its length.
fn arc_escapes(plan: &Plan<'_>, buffers: &Buffers<'_>, n: usize) -> bool
    requires { width * n ≤ length buffers.now.second.now }
    ensures { result ≡ escapes (reference (of_points plan.now.drawing.now.tables.now.points.now) plan.now.drawing.now.edge) plan.now.options (samples n buffers.now.second.now) }
{
    let b = reference(plan.drawing.tables.points, plan.drawing.edge);
    edge_escape::escapes(b, plan.options, &buffers.second[..WIDTH * n])
}

// The complementary arc of a curve of period p, from where the range ends back round to where it began, drawn and tried;
// where there is none, or it escapes too, the short arc.
fn by_complement(plan: &Plan<'_>, p: f64, buffers: &mut Buffers<'_>) -> Result<Drawn, Refusal>
    ensures { RedrawnInto (by_complement plan.now.drawing.now.mode (lent plan.now.drawing.now.tables.now) plan.now.drawing.now.edge plan.now.options p) buffers.old result buffers.new }
{
    let range = plan.drawing.edge.range;
    let complement = Interval {
        lo: range.hi,
        hi: range.lo + p,
    };
    if !(0.0 < complement.span()) {
        return by_short_arc(plan, buffers);
    }
    let n = redraw(plan, complement, buffers)?;
    if arc_escapes(plan, buffers, n) {
        return by_short_arc(plan, buffers);
    }
    Ok(Drawn {
        way: Way::Complement,
        count: n,
    })
}

// Whether the chain of n records in the first buffer stays: a box of no extent cannot say that anything ran away from it.
fn stays(plan: &Plan<'_>, buffers: &Buffers<'_>, n: usize) -> bool
    requires { width * n ≤ length buffers.now.first.now }
    ensures { result ≡ stays (of_points plan.now.drawing.now.tables.now.points.now) plan.now.drawing.now.edge plan.now.options (samples n buffers.now.first.now) }
{
    let b = reference(plan.drawing.tables.points, plan.drawing.edge);
    if b.is_empty() {
        return true;
    }
    // The diagonal is above zero where its square is, which costs no root.
    if edge_escape::escapes(b, plan.options, &buffers.first[..WIDTH * n]) {
        return !(0.0 < b.size().length_squared());
    }
    true
}

// Whether a chain of two points stays, whatever its parameters and its sag, if that is not below zero. `false` says nothing.
pub fn stays_between(points: &[f64], edge: Edge, p: Vec3, q: Vec3) -> bool
    ensures { result ≡ true → (r : Resolved) → le plus_zero r.sag ≡ true → (s t : Float) → stays (of_points points.now) edge r (chord_between p q s t) ≡ true }
{
    let b = reference(points, edge);
    if b.is_empty() {
        return true;
    }
    edge_escape::are_near(b, p, q)
}

// Keeps the chain that was drawn and stands alone in the first buffer, or draws another way into the second and clears
// the first.
pub fn repair_runaway(
    plan: &Plan<'_>,
    drawn: Drawn,
    buffers: &mut Buffers<'_>,
) -> Result<Drawn, Refusal>
    requires { (width * drawn.count ≤ length buffers.old.first.now) × (buffers.old.first.now ≡ filled (length buffers.old.first.now) (flat (samples drawn.count buffers.old.first.now)))
        × (buffers.old.second.now ≡ filled (length buffers.old.second.now) []) × (in_first drawn.way ≡ true) }
    ensures { DrawnIn (within (room_in buffers.old) (repaired plan.now.drawing.now.mode (lent plan.now.drawing.now.tables.now) plan.now.drawing.now.edge plan.now.options (by drawn.way (samples drawn.count buffers.old.first.now)))) buffers.old result buffers.new }
{
    if stays(plan, buffers, drawn.count) {
        return Ok(drawn);
    }
    match curve::period(plan.drawing.tables, plan.drawing.edge.curve) {
        Some(p) => by_complement(plan, p, buffers),
        None => by_short_arc(plan, buffers),
    }
}
