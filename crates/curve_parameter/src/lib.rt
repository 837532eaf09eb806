#![tactic(auto)]
// What ranges and points of curves share, of eval/curve.rs: the row under a row's trims, runs of points, and a segment's own parameter.
ghost use Rattle.std.specs.Prelude.{◌≡◌};
ghost use Rattle.brep.specs.Tree.{run};
ghost use Rattle.curve_parameter.specs.Own.Falls.{leg_under, segment_under};
ghost use Rattle.curve_parameter.specs.Own.Under.{lower_base, under};
ghost use Rattle.curve_parameter.specs.Run.{closes, index_in, parameter_of, own_parameter};

use brep::{Kind, Run, Segment};
use math::{Interval, Vec3};

// Where a polyline's parameter falls: the leg, by its two ends, and how far along it.
#[derive(Clone, Copy)]
pub struct OnLeg {
    pub from: Vec3,
    pub to: Vec3,
    pub local: f64,
}

// Where a composite's parameter falls: the segment, and the parameter of its curve there.
#[derive(Clone, Copy)]
pub struct OnSegment {
    pub segment: Segment,
    pub t: f64,
}

// The base of a trim, where it lies lower.
#[tactic(auto, using(brep::proofs::Numbered::is_kind))]
fn lower_base(curves: &[u32], row: u32) -> Option<u32>
    ensures { result ≡ lower_base curves.now row }
{
    if brep::kind_at(curves, row) == Some(Kind::Trimmed) {
        let base = brep::int_at(curves, row as usize * 3 + 1);
        return (base < row).then_some(base);
    }
    None
}

// While the row is a trim whose base lies lower, its base.
#[tactic(auto, using(crate::proofs::Under::under_falls, crate::proofs::Under::under_stays))]
pub fn under_trims(curves: &[u32], row: u32) -> u32
    ensures { result ≡ under curves.now row }
{
    let mut r = row;
    while let Some(base) = lower_base(curves, r) {
        r = base;
    }
    r
}

// Whether a run of points ends where it begins.
#[tactic(auto, using(crate::proofs::Laws::closes_few, crate::proofs::Laws::closes_many))]
pub fn closes_at(points: &[f64], vertices: Run) -> bool
    ensures { result ≡ closes (run points.now vertices.first vertices.count) }
{
    if vertices.count < 3 {
        return false;
    }
    let a = brep::point_in(points, vertices.first, 0);
    let b = brep::point_in(points, vertices.first, vertices.count - 1);
    a.sub(b).length_squared() < 1e-20
}

// The whole number at or below t, at most last.
pub fn index_in(last: usize, t: f64) -> usize
    ensures { result ≡ index_in last t }
{
    arith::to_usize(arith::floor(t)).min(last)
}

// The parameter of a polyline of so many points, in its range: a closed one wraps, an open one is clamped. Of a run that closes as
// `closes_at` says it is the definition's `polyline_parameter`.
pub fn parameter_of(count: u32, closed: bool, t: f64) -> f64
    ensures { result ≡ parameter_of count closed t }
{
    let span = count.saturating_sub(1) as f64;
    if closed && 0.0 < span {
        return t - arith::floor(t / span) * span;
    }
    arith::clamp(t, 0.0, span)
}

// The leg of a run of points that a polyline's parameter falls on, where there are two points; whether the polyline closes is at hand.
// Stays: a prepared curve keeps whether it is closed, and not its points, so that a struct of all three would be made at each point and
// taken apart here.
#[tactic(auto, unfolding(crate::specs::Own::Falls::leg_under))]
pub fn leg_under(points: &[f64], vertices: Run, closed: bool, t: f64) -> Option<OnLeg>
    ensures { result ≡ leg_under points.now vertices.first vertices.count closed t }
{
    let last = vertices.count.checked_sub(2)?;
    let u = parameter_of(vertices.count, closed, t);
    let i = index_in(last as usize, u) as u32;
    Some(OnLeg {
        from: brep::point_in(points, vertices.first, i),
        to: brep::point_in(points, vertices.first, i + 1),
        local: u - i as f64,
    })
}

// A segment's own parameter; a reversed segment is walked from its high end. Stays: range and sense, here and in curve_tangent, without the
// segment's curve, which is not asked for.
#[tactic(auto, unfolding(crate::specs::Run::own_parameter))]
pub fn own_parameter(range: Interval, same_sense: bool, local: f64) -> f64
    ensures { result ≡ own_parameter range same_sense local }
{
    if same_sense {
        return range.at(local);
    }
    range.at(1.0 - local)
}

// The segment of a run that a composite's parameter falls on, where there is one. Stays: two lists, as in `brep::segment_at`.
#[tactic(auto, unfolding(crate::specs::Own::Falls::segment_under))]
pub fn segment_under(parts: &[u32], ranges: &[f64], segments: Run, t: f64) -> Option<OnSegment>
    ensures { result ≡ segment_under parts.now ranges.now segments.first segments.count t }
{
    let last = segments.count.checked_sub(1)?;
    let clamped = arith::clamp(t, 0.0, segments.count as f64);
    let i = index_in(last as usize, clamped) as u32;
    let segment = brep::segment_at(parts, ranges, segments.first, i);
    let local = clamped - i as f64;
    Some(OnSegment {
        segment,
        t: own_parameter(segment.range, segment.same_sense, local),
    })
}
