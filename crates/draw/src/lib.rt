#![tactic(auto)]
// Drawing an edge: THE entry point. Whoever calls it, with tables, edge, options and buffers of any content, gets a chain
// or one of the numbered refusals.
ghost use Rattle.std.specs.Prelude.{◌≡◌, ◌≤◌, length, T};
ghost use Rattle.std.specs.Float.{binary64};
ghost use Rattle.std.specs.Float.Ieee.{fits};
ghost use Rattle.brep.specs.Rows.{lent};
ghost use Rattle.brep.specs.Tree.{tree};
ghost use Rattle.knots_sort.specs.Own.Sortable.{most_knots};
ghost use Rattle.knots.specs.Knots.{curve_knots};
ghost use Rattle.edge_params.specs.Work.{done, within};
ghost use Rattle.draw_spec.specs.Draw.{first_way, local_options, drawn_probed, lost_chord, in_buffers, Outcome};
ghost use Rattle.options.specs.declared.Mode.TheVariants.{Reference};
ghost use Rattle.draw_spec.specs.Own.Binary.{AllBinary64};
ghost use Rattle.edge_repair.specs.Own.Buffers.{room_in};
ghost use Rattle.edge_repair.specs.Own.Redrawn.{DrawnInto, DrawnIn};
ghost use Rattle.draw.specs.Own.Straight.{StraightInto};
ghost use Rattle.draw.specs.Over.{drawn_bounded, Over};

use brep::{Edge, LentTables};
use curve_prepared::Prepared;
use draw_spec::{Drawn, Way};
use edge_drawing::{Drawing, Plan};
use edge_repair::Buffers;
use math::Interval;
use options::{Mode, Options, Resolved};
use refusal::Refusal;

// The way of the first drawing: the chord where the edge has no usable range.
fn first_way(usable: Option<Interval>) -> Way
    ensures { result ≡ first_way usable }
{
    match usable {
        Some(_) => Way::AsDrawn,
        None => Way::Chord,
    }
}

// Every float of a slice is a binary64. Nothing is done: that a slice is read here says it of the slice.
fn all_binary64(s: &[f64])
    ensures { AllBinary64 s.now }
{
    if 0 < s.len() {
        let _ = s[0];
    }
}

// So is every float that sampling starts from: the slices' and a range's ends. That they are handed over says it of these.
fn binary64(reals: &[f64], ranges: &[f64], range: Interval)
    ensures { AllBinary64 reals.now × AllBinary64 ranges.now × T (fits binary64 range.lo) × T (fits binary64 range.hi) }
{
    all_binary64(reals);
    all_binary64(ranges);
}

// The options for an edge of this size.
fn local_options(drawing: &Drawing<'_>, options: Options) -> Resolved
    ensures { result ≡ local_options (lent drawing.now.tables.now) drawing.now.edge options }
{
    let r = options.resolve();
    if 0.0 < r.relative {
        let extent = edge_extent::extent_usable(drawing.tables, drawing.edge, drawing.usable);
        return r.for_extent(extent);
    }
    // No extent changes these, so that none is worked out. What its probes may not ask for is looked at before the edge is discretised, either
    // way; where one is too far, an extent was worked out for nothing.
    r
}

// Draws a line's edge in one segment, the commonest, at once, where neither its extent nor its box can change the chain, and says whether
// it did. If not, both buffers are as they were, and it is drawn as any other.
fn draw_straight(drawing: &Drawing<'_>, options: Options, buffers: &mut Buffers<'_>) -> bool
    ensures { StraightInto (in_buffers drawing.now.mode (lent drawing.now.tables.now) drawing.now.edge options (length buffers.old.first.now) (length buffers.old.second.now)) buffers.old result buffers.new }
{
    if 1 < options.segments {
        return false;
    }
    let Some(range) = drawing.usable else {
        return false;
    };
    let tables = drawing.tables;
    let edge = drawing.edge;
    let line = curve_prepared::line_under(tables.points, tables.curves, edge.curve);
    let Prepared::Line { origin, direction } = line else {
        return false;
    };
    let start = brep::point(tables.points, edge.start);
    let end = brep::point(tables.points, edge.end);
    if edge_repair::stays_between(tables.points, edge, start, end) {
        if edge_segment::draw_segment(
            start,
            end,
            origin,
            direction,
            edge,
            range,
            options,
            buffers.first,
        ) {
            base_lists::clear_from(buffers.second, 0);
            return true;
        }
    }
    false
}

// The chord of the vertices, with lo and hi, of a curve that strict mode finds nothing to draw over. Repair does not look at it.
fn draw_lost(drawing: &Drawing<'_>, buffers: &mut Buffers<'_>) -> Result<Drawn, Refusal>
    ensures { DrawnIn (within (room_in buffers.old) (done (lost_chord (lent drawing.now.tables.now) drawing.now.edge))) buffers.old result buffers.new }
{
    let edge = drawing.edge;
    edge_place::chord(
        drawing.tables.points,
        edge,
        edge.range.lo,
        edge.range.hi,
        buffers.first,
    );
    base_lists::clear_from(buffers.second, 0);
    Ok(Drawn {
        way: Way::Chord,
        count: 2,
    })
}

// The closure inside discretise_all: the probes, discretise, then repair_runaway.
fn drawn_in(plan: &Plan<'_>, buffers: &mut Buffers<'_>) -> Result<Drawn, Refusal>
    ensures { DrawnIn (within (room_in buffers.old) (drawn_probed plan.now.drawing.now.mode (lent plan.now.drawing.now.tables.now) plan.now.drawing.now.edge plan.now.options)) buffers.old result buffers.new }
{
    let count = edge_discretise::discretise_usable(plan, true, buffers.first, buffers.second)?;
    let way = first_way(plan.drawing.usable);
    edge_repair::repair_runaway(plan, Drawn { way, count }, buffers)
}

// Draws an edge into buffers that have room, over tables of any content, of which nothing is looked at but that its curve has no more knots
// than can be sorted.
fn draw_unchecked(
    drawing: &Drawing<'_>,
    options: Options,
    buffers: &mut Buffers<'_>,
) -> Result<Drawn, Refusal>
    ensures { DrawnIn (in_buffers drawing.now.mode (lent drawing.now.tables.now) drawing.now.edge options (length buffers.old.first.now) (length buffers.old.second.now)) buffers.old result buffers.new }
{
    if draw_straight(drawing, options, buffers) {
        return Ok(Drawn {
            way: Way::AsDrawn,
            count: 2,
        });
    }
    let curves = drawing.tables.curves;
    let edge = drawing.edge;
    if edge_range::has_no_domain(curves, edge.curve, edge.range, drawing.mode) {
        return draw_lost(drawing, buffers);
    }
    let plan = Plan {
        drawing,
        options: local_options(drawing, options),
    };
    drawn_in(&plan, buffers)
}

// The same into buffers of any length: that either has room, which `Buffers` keeps, is looked at before the edge's usable range is worked
// out. Stays: tables, edge, options, mode and two buffers are what a caller lends, here and in draw_bounded.
#[inline(always)]
fn draw_in_buffers(
    tables: &LentTables<'_>,
    edge: Edge,
    options: Options,
    mode: Mode,
    first: &mut [f64],
    second: &mut [f64],
) -> Result<Drawn, Refusal>
    requires { length (curve_knots (tree (lent tables.now) edge.curve)) ≤ most_knots }
    ensures { DrawnInto (in_buffers mode (lent tables.now) edge options (length first.old) (length second.old)) first.old second.old result first.new second.new }
{
    if first.len() < edge_record::SHORTEST || second.len() < edge_record::SHORTEST {
        return Err(Refusal::ShortBuffer);
    }
    let drawing = Drawing::new(tables, edge, mode);
    let mut buffers = Buffers { first, second };
    draw_unchecked(&drawing, options, &mut buffers)
}

// The same to a depth that is bounded. Evaluation calls itself once for each composite inside a composite, and only the tables' whole verdict
// says how many these can be: where there is one they are gone through after all. Where there is none, no evaluation is deeper than a
// composite and a segment of it. (Trims are followed in a loop.)
fn draw_bounded(
    tables: &LentTables<'_>,
    edge: Edge,
    options: Options,
    mode: Mode,
    first: &mut [f64],
    second: &mut [f64],
) -> Result<Drawn, Refusal>
    requires { length (curve_knots (tree (lent tables.now) edge.curve)) ≤ most_knots }
    ensures { DrawnInto (drawn_bounded mode (lent tables.now) edge options (length first.old) (length second.old)) first.old second.old result first.new second.new }
{
    if curve_nests::nests(tables.curves, tables.parts, edge.curve) {
        return draw_in_mode(tables, edge, options, mode, first, second);
    }
    draw_in_buffers(tables, edge, options, mode, first, second)
}

// Draws an edge in a mode, over tables that `causes::check_tables` has accepted, for many edges over the same tables: of the tables only
// the lengths are looked at, unless composites nest. Any others are drawn as their rows read, or refused: a run of more segments than a
// table may have is turned away before its segments are gone through. Stays: tables, edge, options and mode are what a caller has, here, below
// and in draw_handed; the old entry points take the first three.
pub fn draw_over_in_mode(
    tables: &LentTables<'_>,
    edge: Edge,
    options: Options,
    mode: Mode,
    first: &mut [f64],
    second: &mut [f64],
) -> Result<Drawn, Refusal>
    ensures { Over mode (lent tables.now) edge options first.old second.old result first.new second.new }
{
    binary64(tables.reals, tables.ranges, edge.range);
    if causes::oversize(tables) {
        return Err(Refusal::Oversize);
    }
    causes::check_over(tables, edge, options)?;
    let knots = knots::knot_count(tables, edge.curve);
    if knots_sort::MOST_KNOTS < knots {
        return Err(Refusal::IllFormed);
    }
    if knots == 0 {
        // It has no segments, so that nothing nests.
        return draw_in_buffers(tables, edge, options, mode, first, second);
    }
    draw_bounded(tables, edge, options, mode, first, second)
}

// The same in the mode that is equal to the Rust.
pub fn draw_over(
    tables: &LentTables<'_>,
    edge: Edge,
    options: Options,
    first: &mut [f64],
    second: &mut [f64],
) -> Result<Drawn, Refusal>
    ensures { Over Reference (lent tables.now) edge options first.old second.old result first.new second.new }
{
    draw_over_in_mode(tables, edge, options, Mode::Reference, first, second)
}

// THE ENTRY POINT: looks at the tables, the edge and the options, and draws the edge's chain, in a mode, into one of the buffers.
pub fn draw_in_mode(
    tables: &LentTables<'_>,
    edge: Edge,
    options: Options,
    mode: Mode,
    first: &mut [f64],
    second: &mut [f64],
) -> Result<Drawn, Refusal>
    ensures { Outcome mode (lent tables.now) edge options first.old second.old result first.new second.new }
{
    binary64(tables.reals, tables.ranges, edge.range);
    causes::check(tables, edge, options)?;
    draw_in_buffers(tables, edge, options, mode, first, second)
}

// The same in the mode that is equal to the Rust.
pub fn draw(
    tables: &LentTables<'_>,
    edge: Edge,
    options: Options,
    first: &mut [f64],
    second: &mut [f64],
) -> Result<Drawn, Refusal>
    ensures { Outcome Reference (lent tables.now) edge options first.old second.old result first.new second.new }
{
    draw_in_mode(tables, edge, options, Mode::Reference, first, second)
}
