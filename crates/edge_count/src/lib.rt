#![tactic(auto)]
// Sampling without its lists: how many parameters bisection would form, or refusal 8 or 11, whichever comes first. It asks for what
// sample_params asks for, in its order. Only curves that may lead to a hyperbola's parameter that is too far are gone through so.
ghost use Rattle.std.specs.Prelude.{◌≡◌, Bool, false, not, List, [], ◌∷◌, ◌++◌, map, Float};
ghost use Rattle.brep.specs.Rows.{tables};
ghost use Rattle.brep.specs.Tree.{tree};
ghost use Rattle.curve_asks.specs.Asks.{asks_far};
ghost use Rattle.curve_prepared.specs.Own.PreparedCurve.{curve_of};
ghost use Rattle.edge_drawing.specs.Own.Drawing.{sampled_curve};
ghost use Rattle.knots_thin.specs.Thin.{kept_breaks, deviation_asks, thinning_asks};
ghost use Rattle.edge_params.specs.Work.{some_far};
ghost use Rattle.edge_params.specs.Params.{adds, subdividing, unless_hi, bisecting};
ghost use Rattle.edge_params.specs.Own.Counted.{counted};
ghost use Rattle.edge_subdivide.specs.Bisect.{end_at, within_budget};
ghost use Rattle.edge_sample.specs.Own.Sampling.{sampler_of};
ghost use Rattle.edge_count.specs.Own.Said.{range_counted};

use curve_prepared::PreparedCurve;
use edge_drawing::Sampling;
use edge_subdivide::{Bisection, End, Recorder};
use math::Interval;
use refusal::Refusal;

// What a count goes by: the curve, with what its spans are held to, the range whose parameters are counted, and the room for parameters. Stays:
// the walk is that of edge_sample, and so is halving; one walk over what is done at each step would be a second caller of the split, which is
// then no longer read in place, and bisected curves took 3 to 8 % more instructions (docs/DECISIONS.md, 72).
#[derive(Drop)]
struct Counter<'a> {
    pub bisection: Bisection<'a>,
    pub range: Interval,
    pub room: usize,
}

impl Counter<'_> {
    // One parameter more than k, or refusal 8 where there is no room for it.
    #[tactic(auto, using(crate::proofs::Counting::one_fits, crate::proofs::Counting::one_over))]
    fn one(&self, k: usize) -> Result<usize, Refusal>
        ensures { (far : Float → Bool) (t : Float) → result ≡ counted far self.now.room k (adds t ∷ []) }
    {
        if k < self.room {
            return Ok(k + 1);
        }
        Err(Refusal::NoRoom)
    }

    // Whether the curve may not be asked for its point at t.
    fn is_far(&self, t: f64) -> bool
        ensures { result ≡ asks_far (curve_of self.now.bisection.curve) t }
    {
        let curve = &self.bisection.curve;
        curve_asks::far_at(
            curve.tables.curves,
            curve.tables.parts,
            curve.tables.ranges,
            curve.row,
            t,
        )
    }

    // Whether bisection halves the span from a to b, by the list that it makes of the span with a depth of one: the middle, or nothing. (Not by the
    // split itself, for the reason above.)
    fn is_halved(&self, a: End, b: End) -> bool
        requires { (a ≡ end_at (curve_of self.now.bisection.curve) a.t)
            × (b ≡ end_at (curve_of self.now.bisection.curve) b.t) }
        ensures { result ≡ not (within_budget (curve_of self.now.bisection.curve) self.now.bisection.limits.options a.t b.t) }
    {
        let mut list = Recorder {
            params: &mut [0.0; 1],
            chain: &mut [0.0; edge_record::WIDTH],
            len: 0,
        };
        // Never else: there is room for one.
        let Some(()) = self.bisection.subdivide(a, b, 1, &mut list) else {
            return true;
        };
        list.len != 0
    }

    // How many parameters there are after bisection between a and b, where there were k before it.
    fn subdivided(&self, a: End, b: End, depth: u32, k: usize) -> Result<usize, Refusal>
        requires { (a ≡ end_at (curve_of self.now.bisection.curve) a.t)
            × (b ≡ end_at (curve_of self.now.bisection.curve) b.t)
            × (asks_far (curve_of self.now.bisection.curve) a.t ≡ false)
            × (asks_far (curve_of self.now.bisection.curve) b.t ≡ false) }
        ensures { result ≡ counted (asks_far (curve_of self.now.bisection.curve)) self.now.room k
            (subdividing (within_budget (curve_of self.now.bisection.curve) self.now.bisection.limits.options) depth a.t b.t) }
    {
        if depth == 0 {
            return Ok(k);
        }
        let t = 0.5 * (a.t + b.t);
        if self.is_far(t) {
            return Err(Refusal::TooFar);
        }
        if !self.is_halved(a, b) {
            return Ok(k);
        }
        let m = self.bisection.end_at(t);
        let n = self.subdivided(a, m, depth - 1, k)?;
        let next = self.one(n)?;
        self.subdivided(m, b, depth - 1, next)
    }

    // What bisection puts inside a span, whose ends it asks for first, if it goes any deep.
    fn inside(&self, left: End, right: End, k: usize) -> Result<usize, Refusal>
        requires { (left ≡ end_at (curve_of self.now.bisection.curve) left.t) × (right ≡ end_at (curve_of self.now.bisection.curve) right.t) }
        ensures { result ≡ counted (asks_far (curve_of self.now.bisection.curve)) self.now.room k
            (subdividing (within_budget (curve_of self.now.bisection.curve) self.now.bisection.limits.options) self.now.bisection.limits.options.depth left.t right.t) }
    {
        let depth = self.bisection.limits.options.depth;
        if depth == 0 {
            return Ok(k);
        }
        if self.is_far(left.t) || self.is_far(right.t) {
            return Err(Refusal::TooFar);
        }
        self.subdivided(left, right, depth, k)
    }

    // A span of the walk: what bisection puts inside it, then its end, unless that is range.hi, which stands once at the list's end.
    fn span(&self, left: End, right: End, k: usize) -> Result<usize, Refusal>
        requires { (left ≡ end_at (curve_of self.now.bisection.curve) left.t) × (right ≡ end_at (curve_of self.now.bisection.curve) right.t) }
        ensures { result ≡ counted (asks_far (curve_of self.now.bisection.curve)) self.now.room k
            (subdividing (within_budget (curve_of self.now.bisection.curve) self.now.bisection.limits.options) self.now.bisection.limits.options.depth left.t right.t ++ map adds (unless_hi self.now.range right.t)) }
    {
        let n = self.inside(left, right, k)?;
        if right.t != self.range.hi {
            return self.one(n);
        }
        Ok(n)
    }
}

// range.lo, the spans between the stops, range.hi.
fn count_walk(sampling: &Sampling<'_>, breaks: &[f64], room: usize) -> Result<usize, Refusal>
    requires { breaks.now ≡ kept_breaks sampling.now.drawing.now.mode (sampled_curve sampling.now) sampling.now.range.lo sampling.now.range.hi sampling.now.options.sag }
    ensures { result ≡ counted (asks_far (sampled_curve sampling.now)) room 0 (bisecting (sampler_of sampling.now) sampling.now.range) }
{
    let drawing = sampling.drawing;
    let range = sampling.range;
    let curve = PreparedCurve::new(drawing.tables, drawing.edge.curve);
    let counter = Counter {
        bisection: Bisection::new(curve, sampling.options),
        range,
        room,
    };
    let mut k = counter.one(0)?;
    let mut left = counter.bisection.end_at(range.lo);
    // Stays: by number, as in edge_sample.
    for i in 0..=breaks.len() {
        let right = counter
            .bisection
            .end_at(edge_sample::stop_at(range, breaks, i));
        k = counter.span(left, right, k)?;
        left = right;
    }
    counter.one(k)
}

// Whether one of the five parameters at which `deviation` asks for the curve is too far. Stays: the slices one by one, as in edge_asks.
fn span_far(curves: &[u32], parts: &[u32], ranges: &[f64], row: u32, a: f64, b: f64) -> bool
    ensures { (points reals : List Float) → result ≡ some_far (asks_far (tree (tables points curves.now reals parts.now ranges.now) row)) (deviation_asks a b) }
{
    let width = b - a;
    [a, b, a + width * 0.25, a + width * 0.5, a + width * 0.75]
        .iter()
        .any(|t| curve_asks::far_at(curves, parts, ranges, row, *t))
}

// Whether thin_breaks asks for a parameter that is too far.
fn thin_far(sampling: &Sampling<'_>, breaks: &[f64]) -> bool
    ensures { result ≡ some_far (asks_far (sampled_curve sampling.now)) (thinning_asks (sampled_curve sampling.now) breaks.now sampling.now.range.lo sampling.now.range.hi sampling.now.options.sag) }
{
    let tables = sampling.drawing.tables;
    let row = sampling.drawing.edge.curve;
    let range = sampling.range;
    let sag = sampling.options.sag;
    if !(0.0 < sag) {
        return false;
    }
    let mut start = range.lo;
    for (i, b) in breaks.iter().enumerate() {
        let next = knots_thin::next_of(breaks, i, range.hi);
        if span_far(tables.curves, tables.parts, tables.ranges, row, start, next) {
            return true;
        }
        let pa = curve::point_at(tables, row, start);
        if sag < knots_thin::deviation(tables, row, start, next, pa) {
            start = *b;
        }
    }
    false
}

// The count of a curve that has knots.
fn count_breaks(sampling: &Sampling<'_>, room: usize) -> Result<usize, Refusal>
    ensures { result ≡ range_counted room sampling.now.drawing.now.mode (sampled_curve sampling.now) sampling.now.range sampling.now.options }
{
    let tables = sampling.drawing.tables;
    let row = sampling.drawing.edge.curve;
    let range = sampling.range;
    let mut breaks = [0.0; knots_sort::MOST_KNOTS];
    // Never refused, here and below: the knots fit.
    let mode = sampling.drawing.mode;
    let n = knots_breaks::breaks_in(tables, row, range, mode, &mut breaks).ok_or(Refusal::NoRoom)?;
    if thin_far(sampling, &breaks[..n]) {
        return Err(Refusal::TooFar);
    }
    let sag = sampling.options.sag;
    let m = knots_thin::kept_breaks(tables, row, range, mode, sag, &mut breaks).ok_or(
        Refusal::NoRoom,
    )?;
    count_walk(sampling, &breaks[..m], room)
}

// How many parameters sample_params would form over a range before its segment floor, of a curve that has no closed form; or refusal 8
// or 11, whichever comes first. Most curves have no knots, and need no room for breaks. Stays: `bisect_range` of edge_sample makes the same test, and
// one function over what each does then would be this test again, with a closure for either way.
#[tactic(auto, using(crate::proofs::Laws::range_plain, edge_sample::proofs::Broken::no_breaks))]
pub fn count_range(sampling: &Sampling<'_>, room: usize) -> Result<usize, Refusal>
    ensures { result ≡ range_counted room sampling.now.drawing.now.mode (sampled_curve sampling.now) sampling.now.range sampling.now.options }
{
    if knots::knot_count(sampling.drawing.tables, sampling.drawing.edge.curve) == 0 {
        let none = [0.0; 1];
        return count_walk(sampling, &none[..0], room);
    }
    count_breaks(sampling, room)
}
