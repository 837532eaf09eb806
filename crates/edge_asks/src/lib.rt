#![tactic(auto)]
// What drawing would ask a curve for, told before a chain is made of it: whether some of it is too far, and whether refusal 8 or 11 comes first. Where
// a look at the rows says that no hyperbola can be asked for a parameter that is too far, nothing is gone through. The slices are lent one by
// one where a contract holds whatever the other tables hold.
ghost use Rattle.std.specs.Prelude.{◌≡◌, ℕ, ◌<◌, ◌&&◌, List, nat_lt, Float, Some, None, T};
ghost use Rattle.std.specs.Float.{binary64};
ghost use Rattle.std.specs.Float.Ieee.{fits};
ghost use Rattle.brep.specs.Rows.{tables};
ghost use Rattle.brep.specs.Tree.{tree};
ghost use Rattle.curve_asks.specs.Asks.{asks_far};
ghost use Rattle.curve_asks.specs.Own.Risk.{in_reach, is_hyperbola};
ghost use Rattle.edge_params.specs.Work.{some_far, asking, within};
ghost use Rattle.edge_params.specs.Params.{evenly};
ghost use Rattle.edge_range.specs.Usable.{analytic_segments};
ghost use Rattle.edge_drawing.specs.Own.Drawing.{sampled_curve};
ghost use Rattle.edge_sample.specs.Own.Answered.{sampled_in};
ghost use Rattle.draw_spec.specs.Edge.{listed};
ghost use Rattle.draw_spec.specs.Repair.{sweep};
ghost use Rattle.edge_asks.specs.Own.Told.{asked_first, told_of};

use brep::Kind;
use edge_drawing::Sampling;
use math::Interval;
use refusal::Refusal;

// Whether one of the parameters that divide a range evenly is too far: n steps, both ends included. Each is looked at.
// Stays: the slices one by one, here and below: over tables the clauses would not say that points and reals do not matter.
fn steps_far(
    curves: &[u32],
    parts: &[u32],
    ranges: &[f64],
    row: u32,
    range: Interval,
    n: u64,
) -> bool
    ensures { (points reals : List Float) → result ≡ some_far (asks_far (tree (tables points curves.now reals parts.now ranges.now) row)) (evenly range n) }
{
    let total = std::num::nearest_u64_to_f64(n);
    for i in 0..=n {
        let t = range.at(std::num::nearest_u64_to_f64(i) / total);
        if curve_asks::far_at(curves, parts, ranges, row, t) {
            return true;
        }
    }
    false
}

// The same, behind a look at the rows.
fn evenly_far(
    curves: &[u32],
    parts: &[u32],
    ranges: &[f64],
    row: u32,
    range: Interval,
    n: u64,
) -> bool
    ensures { (points reals : List Float) → result ≡ some_far (asks_far (tree (tables points curves.now reals parts.now ranges.now) row)) (evenly range n) }
{
    curve_asks::may_ask(curves, parts, ranges, row)
        && steps_far(curves, parts, ranges, row, range, n)
}

// Whether edge_extent's nine probes are asked for, and one of them is too far. They are asked for whether or not the options use the extent.
// Stays: a flag, here and below, as at `edge_discretise::discretise_usable`.
#[tactic(auto, unfolding(draw_spec::specs::Draw::probes, edge_params::specs::Work::some_far))]
fn probes_far(
    curves: &[u32],
    parts: &[u32],
    ranges: &[f64],
    row: u32,
    range: Interval,
    probes_first: bool,
) -> bool
    ensures { (points reals : List Float) → result ≡ some_far (asks_far (tree (tables points curves.now reals parts.now ranges.now) row)) (asked_first probes_first (Some range)) }
{
    probes_first && steps_far(curves, parts, ranges, row, range, 8)
}

// Whether one of the 513 parameters at which repair looks for the vertices is too far.
#[tactic(auto, unfolding(edge_params::specs::Work::some_far))]
pub fn sweep_far(curves: &[u32], parts: &[u32], ranges: &[f64], row: u32, natural: Interval) -> bool
    ensures { (points reals : List Float) → result ≡ some_far (asks_far (tree (tables points curves.now reals parts.now ranges.now) row)) (sweep natural) }
{
    let span = natural.span();
    if arith::is_finite(span) && 0.0 < span {
        return evenly_far(curves, parts, ranges, row, natural, 512);
    }
    false
}

// Whether a row is a hyperbola, under any trims, and the range's ends are near: then no middle is too far either. That the range is handed
// over says of its ends that they are binary64, which the law of middles asks for.
fn is_near_hyperbola(curves: &[u32], row: u32, range: Interval) -> bool
    ensures ends { T (fits binary64 range.lo) × T (fits binary64 range.hi) }
    ensures near { (points reals : List Float) (parts : List ℕ) (ranges : List Float) → result ≡ is_hyperbola (tree (tables points curves.now reals parts ranges) row) && (in_reach range.lo && in_reach range.hi) }
{
    let r = curve_parameter::under_trims(curves, row);
    brep::kind_at(curves, r) == Some(Kind::Hyperbola)
        && (curve_asks::in_reach(range.lo) && curve_asks::in_reach(range.hi))
}

// Whether the segment floor's even steps fit the room and one of them is too far. Steps that do not fit are refused before they are asked for.
fn floor_far(
    curves: &[u32],
    parts: &[u32],
    ranges: &[f64],
    row: u32,
    range: Interval,
    segments: u64,
    room: usize,
) -> bool
    ensures { (points reals : List Float) → result ≡ nat_lt segments room && some_far (asks_far (tree (tables points curves.now reals parts.now ranges.now) row)) (evenly range segments) }
{
    segments < room as u64 && steps_far(curves, parts, ranges, row, range, segments)
}

// What a pass over the moves of sampling tells, and then the segment floor.
fn tell_by_count(sampling: &Sampling<'_>, room: usize) -> Result<(), Refusal>
    requires { (0 < sampling.now.options.depth)
        × (analytic_segments (sampled_curve sampling.now) sampling.now.range sampling.now.options ≡ None) }
    ensures { within room (listed sampling.now.drawing.now.mode (sampled_curve sampling.now) sampling.now.range sampling.now.options) ≡ told_of result (sampled_in room sampling.now.drawing.now.mode (sampled_curve sampling.now) sampling.now.range sampling.now.options) }
{
    let tables = sampling.drawing.tables;
    let segments = sampling.options.segments;
    let n = edge_count::count_range(sampling, room)?;
    // Two parameters at least are counted, so that these are fewer segments than the floor.
    if n as u64 <= segments
        && floor_far(
            tables.curves,
            tables.parts,
            tables.ranges,
            sampling.drawing.edge.curve,
            sampling.range,
            segments,
            room,
        )
    {
        return Err(Refusal::TooFar);
    }
    Ok(())
}

// What sampling a range in a room comes to, as far as what may not be asked goes, behind the probes or not: `Ok` where the list is the one that
// sampling makes without looking, or the refusal that comes first. Where a list passes the room before anything that is too far is asked for, either
// may be told: sampling then refuses it.
pub fn tell(sampling: &Sampling<'_>, probes_first: bool, room: usize) -> Result<(), Refusal>
    requires { 0 < sampling.now.options.depth }
    ensures { within room (asking (asks_far (sampled_curve sampling.now)) (asked_first probes_first (Some sampling.now.range)) (listed sampling.now.drawing.now.mode (sampled_curve sampling.now) sampling.now.range sampling.now.options)) ≡ told_of result (sampled_in room sampling.now.drawing.now.mode (sampled_curve sampling.now) sampling.now.range sampling.now.options) }
{
    let tables = sampling.drawing.tables;
    let curves = tables.curves;
    let parts = tables.parts;
    let ranges = tables.ranges;
    let row = sampling.drawing.edge.curve;
    let range = sampling.range;
    // Most rows are told by their number, read in place.
    if curve_asks::never_asks(curves, row) {
        return Ok(());
    }
    if !curve_asks::may_ask(curves, parts, ranges, row) {
        return Ok(());
    }
    if probes_far(curves, parts, ranges, row, range, probes_first) {
        return Err(Refusal::TooFar);
    }
    if is_near_hyperbola(curves, row, range) {
        // A list has a segment at least, so that a floor of one changes nothing.
        let segments = sampling.options.segments;
        if segments < 2 || !floor_far(curves, parts, ranges, row, range, segments, room) {
            return Ok(());
        }
    }
    tell_by_count(sampling, room)
}
