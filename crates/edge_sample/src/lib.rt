#![tactic(auto)]
// sample_params of edge.rs, on rows.
ghost use Rattle.std.specs.Prelude.{◌≡◌, ◌++◌, ◌≤◌, length, get_or, take};
ghost use Rattle.std.specs.Float.{nan};
ghost use Rattle.base_lists.specs.Room.{filled};
ghost use Rattle.curve_prepared.specs.Own.PreparedCurve.{curve_of};
ghost use Rattle.edge_drawing.specs.Own.Drawing.{sampled_curve};
ghost use Rattle.edge_params.specs.Params.{unless_hi};
ghost use Rattle.edge_params.specs.Own.Bisected.{subdivided, bisected};
ghost use Rattle.edge_params.specs.Own.InRoom.{refined_in};
ghost use Rattle.knots_thin.specs.Thin.{kept_breaks};
ghost use Rattle.edge_subdivide.specs.Bisect.{end_at, within_budget};
ghost use Rattle.edge_subdivide.specs.Own.Recorded.{Room};
ghost use Rattle.edge_subdivide.specs.Own.Recorder.{Records};
ghost use Rattle.edge_sample.specs.Own.Sampling.{sampler_of};
ghost use Rattle.edge_sample.specs.Own.Traced.{traced, traced_refined, traced_sampled};
ghost use Rattle.edge_sample.specs.Own.Answered.{sampled_in, SampledInto, kept_floats, sampled_as, count_of, known_of, stops};

use curve_prepared::PreparedCurve;
use edge_drawing::Sampling;
use edge_subdivide::{Bisection, End, Recorder};
use math::Interval;

// Stop number i of the walk. The breaks are read backwards where the range runs down.
pub fn stop_at(range: Interval, breaks: &[f64], i: usize) -> f64
    requires { i ≤ length breaks.now }
    ensures { result ≡ get_or (stops range breaks.now) i nan }
{
    let n = breaks.len();
    if i == n {
        return range.hi;
    }
    if range.hi < range.lo {
        breaks[n - 1 - i]
    } else {
        breaks[i]
    }
}

// A span of the walk: what bisection puts inside it, then its end, unless that is range.hi, which stands once at the list's end.
fn step(
    bisection: &Bisection<'_>,
    range: Interval,
    left: End,
    right: End,
    to: &mut Recorder<'_>,
) -> Option<()>
    requires { (left ≡ end_at (curve_of bisection.now.curve) left.t) × (right ≡ end_at (curve_of bisection.now.curve) right.t) }
    ensures { Records (curve_of bisection.now.curve) (subdivided (within_budget (curve_of bisection.now.curve) bisection.now.limits.options) bisection.now.limits.options.depth left.t right.t ++ unless_hi range right.t) result to.old to.new }
{
    bisection.subdivide(left, right, bisection.limits.options.depth, to)?;
    if right.t != range.hi {
        return to.push(right);
    }
    Some(())
}

// range.lo, the spans between the stops, range.hi.
fn walk(sampling: &Sampling<'_>, breaks: &[f64], to: &mut Recorder<'_>) -> Option<()>
    requires { breaks.now ≡ kept_breaks sampling.now.drawing.now.mode (sampled_curve sampling.now) sampling.now.range.lo sampling.now.range.hi sampling.now.options.sag }
    ensures { Records (sampled_curve sampling.now) (bisected (sampler_of sampling.now) sampling.now.range) result to.old to.new }
{
    let drawing = sampling.drawing;
    let range = sampling.range;
    let curve = PreparedCurve::new(drawing.tables, drawing.edge.curve);
    let bisection = Bisection::new(curve, sampling.options);
    let mut left = bisection.end_at(range.lo);
    to.push(left)?;
    // Stays: by number, since `stop_at` reads the breaks either way round, and answers the range's end behind the last; an iterator of one way is
    // another type than one of the other.
    for i in 0..=breaks.len() {
        let right = bisection.end_at(stop_at(range, breaks, i));
        step(&bisection, range, left, right, to)?;
        left = right;
    }
    to.push(left)
}

// The walk over the breaks of a curve that has knots.
fn walk_breaks(sampling: &Sampling<'_>, to: &mut Recorder<'_>) -> Option<()>
    ensures { Records (sampled_curve sampling.now) (bisected (sampler_of sampling.now) sampling.now.range) result to.old to.new }
{
    let mut breaks = [0.0; knots_sort::MOST_KNOTS];
    // Never none: the knots fit.
    let m = knots_thin::kept_breaks(
        sampling.drawing.tables,
        sampling.drawing.edge.curve,
        sampling.range,
        sampling.drawing.mode,
        sampling.options.sag,
        &mut breaks,
    )?;
    walk(sampling, &breaks[..m], to)
}

// Bisection between the breaks. Most curves have no knots, and need no room for breaks.
fn bisect_range(sampling: &Sampling<'_>, to: &mut Recorder<'_>) -> Option<()>
    ensures { Records (sampled_curve sampling.now) (bisected (sampler_of sampling.now) sampling.now.range) result to.old to.new }
{
    if knots::knot_count(sampling.drawing.tables, sampling.drawing.edge.curve) == 0 {
        let none = [0.0; 1];
        return walk(sampling, &none[..0], to);
    }
    walk_breaks(sampling, to)
}

// What sampling answers of a list that has room: how many parameters there are, and whether the chain's records hold the curve's points
// at them. Stays: a flag, since there are so many parameters either way, and `place` is handed both.
#[derive(Clone, Copy)]
pub struct Sampled {
    pub count: usize,
    pub known: bool,
}

// What is answered of a list, and +0.0 behind it, or everywhere where it was refused.
fn settle(listed: Option<usize>, known: bool, out: &mut [f64]) -> Option<Sampled>
    requires { kept_floats listed ≤ length out.old }
    ensures { (result ≡ sampled_as listed known) × (out.new ≡ filled (length out.old) (take (kept_floats listed) out.old)) }
{
    base_lists::clear_from(out, listed.unwrap_or(0));
    let count = listed?;
    Some(Sampled { count, known })
}

// Bisection, then the segment floor: even steps where the list has fewer segments. Bisection's points are left in the chain. Stays: two
// buffers, as the caller lends them; what follows bisection reads and writes the parameters alone.
fn refine(sampling: &Sampling<'_>, out: &mut [f64], chain: &mut [f64]) -> Option<Sampled>
    requires { Room out.old chain.old 0 }
    ensures { SampledInto (length out.old) (refined_in (length out.old) (sampler_of sampling.now) sampling.now.range) (count_of result) out.new
        × (traced (known_of result) chain.new ≡ traced_refined (length out.old) sampling.now.drawing.now.mode (sampled_curve sampling.now) sampling.now.range sampling.now.options chain.old) }
{
    let mut to = Recorder {
        params: out,
        chain,
        len: 0,
    };
    let Some(()) = bisect_range(sampling, &mut to) else {
        return settle(None, false, out);
    };
    let n = to.len;
    let floor = sampling.options.segments;
    if (n as u64) - 1 < floor {
        let even = edge_params::evenly(sampling.range, floor, out);
        return settle(even, false, out);
    }
    settle(Some(n), true, out)
}

// The parameters of the curve of a row over a range, from the start of out, and +0.0 behind them; none, and +0.0 everywhere, where
// a list is longer than out. A closed form gives even steps, but only where it is given the right radius: it is checked
// against the sag, and where it misses that the curve is bisected. Its points for the check, and those of bisection, are left in
// the chain, which has a record for each float of out. Stays: two buffers, as for `refine`.
pub fn sample_params(sampling: &Sampling<'_>, out: &mut [f64], chain: &mut [f64]) -> Option<Sampled>
    requires { Room out.old chain.old 0 }
    ensures { SampledInto (length out.old) (sampled_in (length out.old) sampling.now.drawing.now.mode (sampled_curve sampling.now) sampling.now.range sampling.now.options) (count_of result) out.new
        × (traced (known_of result) chain.new ≡ traced_sampled (length out.old) sampling.now.drawing.now.mode (sampled_curve sampling.now) sampling.now.range sampling.now.options chain.old) }
{
    let tables = sampling.drawing.tables;
    let row = sampling.drawing.edge.curve;
    let form = edge_range::analytic_segments(tables, row, sampling.range, sampling.options);
    let Some(n) = form else {
        return refine(sampling, out, chain);
    };
    let even = edge_params::evenly(sampling.range, n, out);
    let Some(m) = even else {
        return settle(even, false, out);
    };
    if edge_closed_form::meets(tables, row, &out[..m], sampling.options.sag, chain) {
        return settle(even, true, out);
    }
    refine(sampling, out, chain)
}
