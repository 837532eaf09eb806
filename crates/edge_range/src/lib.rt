#![tactic(auto)]
// usable_range and analytic_segments of edge.rs, on rows.
ghost use Rattle.std.specs.Prelude.{◌≡◌, List, ℕ, Float};
ghost use Rattle.brep.specs.Rows.{tables, lent};
ghost use Rattle.brep.specs.Tree.{CurveTree, tree};
ghost use Rattle.curve.specs.Eval.{natural_range, period};
ghost use Rattle.edge_range.specs.Usable.{own_range, clamped_to_domain, within_domain, is_no_range, usable_range, has_no_domain, ellipse_radius, analytic_segments};

use brep::{Kind, LentTables};
use math::Interval;
use options::{Mode, Resolved};
use std::f64::consts::TAU;

// Only a real domain will do: a line's spans the whole of model space.
#[tactic(auto, unfolding(crate::specs::Usable::own_range))]
fn own_range(natural: Interval) -> Option<Interval>
    ensures { result ≡ own_range natural }
{
    let span = natural.span();
    (arith::is_finite(span) && arith::abs(span) < 1e9).then_some(natural)
}

// The edge's range, clamped to the curve's own with a slack.
#[tactic(auto, unfolding(crate::specs::Usable::clamped_to_domain))]
fn clamped_to_domain(natural: Interval, range: Interval) -> Interval
    ensures { result ≡ clamped_to_domain natural range }
{
    let slack = arith::abs(natural.span()) * 1e-9;
    Interval {
        lo: arith::max(range.lo, natural.lo - slack),
        hi: arith::min(range.hi, natural.hi + slack),
    }
}

// A periodic curve may run past its own range.
#[tactic(auto, unfolding(crate::specs::Usable::within_domain))]
fn within_domain(repeats: Option<f64>, natural: Interval, range: Interval) -> Interval
    ensures { result ≡ within_domain repeats natural range }
{
    match repeats {
        Some(_) => range,
        None => clamped_to_domain(natural, range),
    }
}

// Not finite, empty or reversed.
fn is_no_range(range: Interval) -> bool
    ensures { result ≡ is_no_range range }
{
    !arith::is_finite(range.lo) || !arith::is_finite(range.hi) || range.span() <= 0.0
}

// usable_range of a curve of which both the natural range and the period are known.
#[tactic(auto, unfolding(crate::specs::Usable::usable_range))]
fn usable_of(natural: Interval, repeats: Option<f64>, range: Interval) -> Option<Interval>
    ensures { (c : CurveTree) → natural ≡ natural_range c → repeats ≡ period c → result ≡ usable_range c range }
{
    if is_no_range(range) {
        return own_range(natural);
    }
    Some(within_domain(repeats, natural, range))
}

// usable_range of any curve. Stays: beside `usable_of`, since its period is worked out only where it is wanted, which a closure would do no more
// plainly. Stays: tables and row are the curve, as at curve_point::point_at; `edge_drawing::Sampling`, which holds range and options too, stands
// on this crate.
#[tactic(auto, unfolding(crate::specs::Usable::usable_range))]
fn usable_any(tables: &LentTables<'_>, row: u32, range: Interval) -> Option<Interval>
    ensures { result ≡ usable_range (tree (lent tables.now) row) range }
{
    let natural = curve::natural_range(tables, row);
    if is_no_range(range) {
        return own_range(natural);
    }
    let repeats = curve::period(tables, row);
    Some(within_domain(repeats, natural, range))
}

// usable_range: the edge's own range, where a curve can be drawn over it; else the curve's natural one, where that is short enough. A
// line, a circle, an ellipse or a parabola is told by its kind alone, as curve::natural_range and curve::period have it; so the commonest
// rows cost a few compares.
#[tactic(auto, unfolding(curve::specs::Eval::natural_range, curve::specs::Eval::period, brep::specs::Tree::tree, brep::specs::Tree::grown, brep::specs::Rows::curve_of, brep::specs::Rows::kind_of))]
pub fn usable_range(tables: &LentTables<'_>, row: u32, range: Interval) -> Option<Interval>
    ensures { result ≡ usable_range (tree (lent tables.now) row) range }
{
    match brep::kind_at(tables.curves, row) {
        Some(Kind::Line) => usable_of(
            Interval {
                lo: -1e12,
                hi: 1e12,
            },
            None,
            range,
        ),
        Some(Kind::Circle | Kind::Ellipse) => {
            usable_of(Interval { lo: 0.0, hi: TAU }, Some(TAU), range)
        }
        Some(Kind::Parabola) => usable_of(Interval { lo: -1e6, hi: 1e6 }, None, range),
        _ => usable_any(tables, row, range),
    }
}

// Whether strict mode finds nothing to draw a row over: a parabola or a hyperbola whose range is lost. Stays: row, range and mode, as
// `knots_breaks::breaks_in` has them; `edge_drawing::Drawing`, which holds them too, stands on this crate.
#[tactic(auto, unfolding(crate::specs::Usable::has_no_domain, crate::specs::Usable::is_open_conic, brep::specs::Tree::tree, brep::specs::Tree::grown, brep::specs::Rows::curve_of, brep::specs::Rows::kind_of))]
pub fn has_no_domain(curves: &[u32], row: u32, range: Interval, mode: Mode) -> bool
    ensures { (points reals : List Float) (parts : List ℕ) (ranges : List Float) → result ≡ has_no_domain mode (tree (tables points curves.now reals parts ranges) row) range }
{
    matches!(mode, Mode::Strict)
        && matches!(
            brep::kind_at(curves, row),
            Some(Kind::Parabola | Kind::Hyperbola)
        )
        && is_no_range(range)
}

// The tightest curvature of an ellipse is at the end of its longer axis. Either length may be written negative.
#[tactic(auto, unfolding(crate::specs::Usable::ellipse_radius))]
fn ellipse_radius(semi_major: f64, semi_minor: f64) -> f64
    ensures { result ≡ ellipse_radius semi_major semi_minor }
{
    let major = arith::abs(semi_major);
    let minor = arith::abs(semi_minor);
    let a = arith::max(major, minor);
    let b = arith::min(major, minor);
    arith::max(if 0.0 < a { b * b / a } else { 0.0 }, b)
}

// The number of segments of a curve whose curvature is known in closed form.
#[tactic(auto, using(crate::proofs::Laws::segments_under), unfolding(crate::specs::Usable::analytic_segments, curve::specs::Own::Alone::alone, brep::specs::Tree::grown, brep::specs::Rows::curve_of, brep::specs::Rows::kind_of))]
pub fn analytic_segments(
    tables: &LentTables<'_>,
    row: u32,
    range: Interval,
    r: Resolved,
) -> Option<u64>
    ensures { result ≡ analytic_segments (tree (lent tables.now) row) range r }
{
    let base = curve::under_trims(tables.curves, row);
    let at = base as usize * 2;
    match brep::kind_at(tables.curves, base)? {
        // One at least.
        Kind::Line => Some(r.segments.max(1)),
        Kind::Circle => {
            let radius = brep::float_at(tables.reals, at);
            Some(r.segments_for_arc(radius, range.span()))
        }
        Kind::Ellipse => {
            let semi_major = brep::float_at(tables.reals, at);
            let semi_minor = brep::float_at(tables.reals, at + 1);
            let radius = ellipse_radius(semi_major, semi_minor);
            Some(r.segments_for_arc(radius, range.span()))
        }
        _ => None,
    }
}
