#![tactic(auto)]
// Derivatives and tangents on rows: eval/curve.rs. Each contract is the definition at the row's curve.
ghost use Rattle.std.specs.Prelude.{◌≡◌};
ghost use Rattle.arith_trig.specs.Trig.{sin_of, cos_of};
ghost use Rattle.arith_exp.specs.Exp.{cosh_of, sinh_of};
ghost use Rattle.brep.specs.Rows.{lent};
ghost use Rattle.brep.specs.Own.RunOf.{run_of};
ghost use Rattle.brep.specs.Tree.{tree, run};
ghost use Rattle.curve_parameter.specs.Run.{closes};
ghost use Rattle.curve_tangent.specs.Derivative.{polyline_derivative, signed_span, ellipse_derivative, parabola_derivative, hyperbola_derivative, derivative_at, tangent_at};

use brep::{Curve, LentTables, Run};
use math::{Interval, Vec3};

// A polyline's derivative, of its run of points; whether it closes is at hand.
#[tactic(auto, using(crate::proofs::Laws::slope_few, crate::proofs::Laws::slope_many))]
pub fn polyline_derivative(points: &[f64], vertices: Run, closed: bool, t: f64) -> Vec3
    requires { closed ≡ closes (run points.now vertices.first vertices.count) }
    ensures { result ≡ polyline_derivative (run points.now vertices.first vertices.count) t }
{
    match curve_parameter::leg_under(points, vertices, closed, t) {
        Some(leg) => leg.to.sub(leg.from),
        None => Vec3::ZERO,
    }
}

// A segment's span, or that the other way round where it is walked against its curve.
// As in the Rust, a sign times the span.
#[tactic(auto, unfolding(crate::specs::Derivative::signed_span))]
pub fn signed_span(range: Interval, same_sense: bool) -> f64
    ensures { result ≡ signed_span range same_sense }
{
    if same_sense {
        return 1.0 * range.span();
    }
    -1.0 * range.span()
}

// An ellipse's derivative, of its frame's two axes; a circle's is that of equal radii. Stays: a hyperbola's has other functions of t and
// another sign; what is common to both is one expression.
#[tactic(auto, unfolding(crate::specs::Derivative::ellipse_derivative, arith_trig::specs::Own::SinCos::sin_cos_of))]
pub fn ellipse_derivative(x: Vec3, y: Vec3, semi_major: f64, semi_minor: f64, t: f64) -> Vec3
    ensures { result ≡ ellipse_derivative x y semi_major semi_minor (cos_of t) (sin_of t) }
{
    let sc = arith_trig::sin_cos(t);
    x.scale(-semi_major * sc.sin)
        .add(y.scale(semi_minor * sc.cos))
}

// A parabola's derivative, of its frame's two axes.
#[tactic(auto, unfolding(crate::specs::Derivative::parabola_derivative))]
pub fn parabola_derivative(x: Vec3, y: Vec3, focal_dist: f64, t: f64) -> Vec3
    ensures { result ≡ parabola_derivative x y focal_dist t }
{
    x.scale(2.0 * focal_dist * t).add(y.scale(2.0 * focal_dist))
}

// A hyperbola's derivative, of its frame's two axes.
#[tactic(auto, unfolding(crate::specs::Derivative::hyperbola_derivative, arith_exp::specs::Own::Hyperbolic::hyperbolic_of))]
pub fn hyperbola_derivative(x: Vec3, y: Vec3, semi_major: f64, semi_minor: f64, t: f64) -> Vec3
    ensures { result ≡ hyperbola_derivative x y semi_major semi_minor (cosh_of t) (sinh_of t) }
{
    let h = arith_exp::cosh_sinh(t);
    x.scale(semi_major * h.sinh)
        .add(y.scale(semi_minor * h.cosh))
}

// Curve::derivative_at: the derivative at t of the curve of a row. Stays: drawing takes derivatives by `curve_prepared`, which has these steps once
// more. `row_at` is read in place only while it has one caller in a program; with this one called, ten arcs take 9 % more instructions to draw.
#[cycle(composite_derivative_derivative_at)]
pub fn derivative_at(tables: &LentTables<'_>, row: u32, t: f64) -> Vec3
    ensures { result ≡ derivative_at (tree (lent tables.now) row) t }
{
    let r = curve_parameter::under_trims(tables.curves, row);
    let c = brep::row_at(tables.points, tables.curves, tables.reals, r);
    match c {
        Curve::Line {
            origin: _,
            direction,
        } => direction,
        Curve::Circle { frame, radius } => {
            ellipse_derivative(frame.ref_dir, frame.y_dir(), radius, radius, t)
        }
        Curve::Ellipse {
            frame,
            semi_major,
            semi_minor,
        } => ellipse_derivative(frame.ref_dir, frame.y_dir(), semi_major, semi_minor, t),
        Curve::Parabola { frame, focal_dist } => {
            parabola_derivative(frame.ref_dir, frame.y_dir(), focal_dist, t)
        }
        Curve::Polyline(vertices) => {
            let closed = curve_parameter::closes_at(tables.points, vertices);
            polyline_derivative(tables.points, vertices, closed, t)
        }
        // Its base does not fall.
        Curve::Trimmed { base: _, range: _ } => Vec3::ZERO,
        Curve::Composite(segments) => composite_derivative(tables, r, segments, t),
        Curve::Hyperbola {
            frame,
            semi_major,
            semi_minor,
        } => hyperbola_derivative(frame.ref_dir, frame.y_dir(), semi_major, semi_minor, t),
    }
}

// The derivative of a composite's run of segments; their curves lie in rows below row.
#[cycle(composite_derivative_derivative_at)]
fn composite_derivative(tables: &LentTables<'_>, row: u32, segments: Run, t: f64) -> Vec3
    ensures { result ≡ derivative_at (run_of (lent tables.now) row segments.first segments.count) t }
{
    let Some(on) = curve_parameter::segment_under(tables.parts, tables.ranges, segments, t) else {
        return Vec3::ZERO;
    };
    let base = on.segment.curve;
    let k = signed_span(on.segment.range, on.segment.same_sense);
    if base < row {
        return derivative_at(tables, base, on.t).scale(k);
    }
    Vec3::ZERO.scale(k)
}

// Curve::tangent_at: the derivative's direction, where it has one.
pub fn tangent_at(tables: &LentTables<'_>, row: u32, t: f64) -> Option<Vec3>
    ensures { result ≡ tangent_at (tree (lent tables.now) row) t }
{
    derivative_at(tables, row, t).try_normalized()
}
