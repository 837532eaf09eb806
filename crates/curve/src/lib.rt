#![tactic(auto)]
// Ranges, closure, period and sampling on rows, of eval/curve.rs. Each contract is the definition at the row's curve.
// Of a row's numbers only those that are used are read. Stays: a match has an arm for each kind, as the Rust's, and `None` for a number that is
// none, also where arms have equal answers: a new kind is then not passed over. After `under_trims` a trim's arm is one whose base is not lower.
ghost use Rattle.std.specs.Prelude.{◌≡◌, ◌+◌, ◌*◌, get_or};
ghost use Rattle.std.specs.Float.{nan};
ghost use Rattle.math.specs.Math.{interval};
ghost use Rattle.brep.specs.Rows.{lent};
ghost use Rattle.brep.specs.Tree.{tree, run, polyline};
ghost use Rattle.curve.specs.Own.Alone.{alone};
ghost use Rattle.curve.specs.Eval.{polyline_range, natural_range, spans_agree, is_closed, every_span, period, is_sampled};

use brep::{Kind, LentTables, Run};
use curve_parameter::closes_at;
use math::Interval;

// What others name here of eval/curve.rs's parameters and points.
pub use curve_parameter::{own_parameter, under_trims};
pub use curve_point::point_at;

// 2π
const TAU: f64 = 6.283185307179586;

// A trim's range.
fn range_at(reals: &[f64], row: u32) -> Interval
    ensures { result ≡ interval (get_or reals.now (row * 2) nan) (get_or reals.now (row * 2 + 1) nan) }
{
    let at = row as usize * 2;
    Interval {
        lo: brep::float_at(reals, at),
        hi: brep::float_at(reals, at + 1),
    }
}

// The range of a polyline of so many points.
fn polyline_range(count: u32) -> Interval
    ensures { result ≡ polyline_range count }
{
    Interval {
        lo: 0.0,
        hi: count.saturating_sub(1) as f64,
    }
}

// Curve::natural_range: the range over which the curve of a row is defined.
#[tactic(auto, using(brep::proofs::Laws::length_run, curve_parameter::proofs::Laws::count_segments, crate::proofs::Laws::no_count), unfolding(crate::specs::Eval::natural_range, brep::specs::Tree::tree, brep::specs::Tree::grown, brep::specs::Rows::curve_of, brep::specs::Rows::kind_of))]
pub fn natural_range(tables: &LentTables<'_>, row: u32) -> Interval
    ensures { result ≡ natural_range (tree (lent tables.now) row) }
{
    let at = row as usize * 3;
    match brep::kind_at(tables.curves, row) {
        Some(Kind::Line) => Interval {
            lo: -1e12,
            hi: 1e12,
        },
        Some(Kind::Circle) => Interval { lo: 0.0, hi: TAU },
        Some(Kind::Ellipse) => Interval { lo: 0.0, hi: TAU },
        Some(Kind::Parabola) => Interval { lo: -1e6, hi: 1e6 },
        Some(Kind::Polyline) => polyline_range(brep::int_at(tables.curves, at + 2)),
        Some(Kind::Trimmed) => range_at(tables.reals, row),
        Some(Kind::Composite) => Interval {
            lo: 0.0,
            hi: brep::int_at(tables.curves, at + 2) as f64,
        },
        Some(Kind::Hyperbola) => Interval { lo: -1e6, hi: 1e6 },
        None => Interval { lo: 0.0, hi: 0.0 },
    }
}

// Whether a trim's span is its base's own.
fn spans_agree(range: Interval, own: Interval) -> bool
    ensures { result ≡ spans_agree range own }
{
    arith::abs(arith::abs(range.span()) - own.span()) < 1e-9
}

// Curve::is_closed: whether the curve of a row ends where it starts.
#[tactic(auto, using(brep::proofs::Laws::lower, brep::proofs::Laws::high, brep::proofs::Laws::length_run), unfolding(crate::specs::Eval::is_closed, curve_parameter::specs::Run::closes, brep::specs::Tree::tree, brep::specs::Tree::grown, brep::specs::Rows::curve_of, brep::specs::Rows::kind_of))]
pub fn is_closed(tables: &LentTables<'_>, row: u32) -> bool
    ensures { result ≡ is_closed (tree (lent tables.now) row) }
{
    match brep::kind_at(tables.curves, row) {
        Some(Kind::Line) => false,
        Some(Kind::Circle) => true,
        Some(Kind::Ellipse) => true,
        Some(Kind::Parabola) => false,
        Some(Kind::Polyline) => closes_at(tables.points, brep::run_at(tables.curves, row)),
        Some(Kind::Trimmed) => {
            let base = brep::int_at(tables.curves, row as usize * 3 + 1);
            base < row
                && is_closed(tables, base)
                && spans_agree(range_at(tables.reals, row), natural_range(tables, base))
        }
        Some(Kind::Composite) => false,
        Some(Kind::Hyperbola) => false,
        None => false,
    }
}

// A span that is above zero and finite is a period.
#[tactic(auto, unfolding(crate::specs::Eval::every_span))]
fn every_span(span: f64) -> Option<f64>
    ensures { result ≡ every_span span }
{
    (0.0 < span && arith::is_finite(span)).then_some(span)
}

// A polyline's period, where it closes, is its range's span.
#[tactic(auto, using(brep::proofs::Laws::length_run), unfolding(crate::specs::Eval::period, crate::specs::Eval::natural_range))]
fn polyline_period(points: &[f64], vertices: Run) -> Option<f64>
    ensures { result ≡ period (polyline (run points.now vertices.first vertices.count)) }
{
    if closes_at(points, vertices) {
        return every_span(polyline_range(vertices.count).span());
    }
    None
}

// The period of a row that is no trim of a lower one.
#[tactic(auto, using(brep::proofs::Laws::length_run), unfolding(crate::specs::Eval::period, curve_parameter::specs::Run::closes, brep::specs::Tree::grown, brep::specs::Rows::curve_of, brep::specs::Rows::kind_of))]
fn own_period(tables: &LentTables<'_>, row: u32) -> Option<f64>
    ensures { result ≡ period (alone (lent tables.now) row) }
{
    match brep::kind_at(tables.curves, row)? {
        Kind::Line => None,
        Kind::Circle => Some(TAU),
        Kind::Ellipse => Some(TAU),
        Kind::Parabola => None,
        Kind::Polyline => polyline_period(tables.points, brep::run_at(tables.curves, row)),
        // Its base does not fall.
        Kind::Trimmed => None,
        Kind::Composite => None,
        Kind::Hyperbola => None,
    }
}

// Curve::period: what the parameter of a closed curve repeats by.
#[tactic(auto, using(crate::proofs::Laws::period_under))]
pub fn period(tables: &LentTables<'_>, row: u32) -> Option<f64>
    ensures { result ≡ period (tree (lent tables.now) row) }
{
    own_period(tables, under_trims(tables.curves, row))
}

// Whether a row that is no trim of a lower one is a polyline. (An unknown kind and a base that is not lower read as an empty one.)
#[tactic(auto, unfolding(crate::specs::Eval::is_sampled, brep::specs::Tree::grown, brep::specs::Rows::curve_of, brep::specs::Rows::kind_of))]
fn is_polyline(tables: &LentTables<'_>, row: u32) -> bool
    ensures { result ≡ is_sampled (alone (lent tables.now) row) }
{
    match brep::kind_at(tables.curves, row) {
        Some(Kind::Line) => false,
        Some(Kind::Circle) => false,
        Some(Kind::Ellipse) => false,
        Some(Kind::Parabola) => false,
        Some(Kind::Polyline) => true,
        Some(Kind::Trimmed) => true,
        Some(Kind::Composite) => false,
        Some(Kind::Hyperbola) => false,
        None => true,
    }
}

// Whether the row is a polyline, or a trim of one.
#[tactic(auto, using(crate::proofs::Laws::sampled_under))]
pub fn is_sampled(tables: &LentTables<'_>, row: u32) -> bool
    ensures { result ≡ is_sampled (tree (lent tables.now) row) }
{
    is_polyline(tables, under_trims(tables.curves, row))
}
