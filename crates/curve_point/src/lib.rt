#![tactic(auto)]
// Points on rows: point_at of eval/curve.rs. Each contract is the definition at the row's curve.
ghost use Rattle.std.specs.Prelude.{◌≡◌};
ghost use Rattle.math.specs.Math.{y_dir};
ghost use Rattle.brep.specs.Rows.{lent};
ghost use Rattle.brep.specs.Own.RunOf.{run_of};
ghost use Rattle.brep.specs.Tree.{tree, run};
ghost use Rattle.curve_parameter.specs.Run.{closes};
ghost use Rattle.curve_point.specs.Own.Turn.{sin_cos_for};
ghost use Rattle.curve_point.specs.Point.{polyline_point, axes_point, parabola_point, point_at};

use arith_trig::SinCos;
use brep::{Curve, Kind, LentTables, Run};
use math::{Frame, Vec3};

// A polyline's point, of its run of points; whether it closes is at hand.
#[tactic(auto, using(crate::proofs::Laws::polyline_one, crate::proofs::Laws::polyline_none, crate::proofs::Laws::polyline_some))]
pub fn polyline_point(points: &[f64], vertices: Run, closed: bool, t: f64) -> Vec3
    requires { closed ≡ closes (run points.now vertices.first vertices.count) }
    ensures { result ≡ polyline_point (run points.now vertices.first vertices.count) t }
{
    if vertices.count == 1 {
        return brep::point_in(points, vertices.first, 0);
    }
    let Some(leg) = curve_parameter::leg_under(points, vertices, closed, t) else {
        return Vec3::ZERO;
    };
    leg.from.lerp(leg.to, leg.local)
}

// An ellipse's point, of its frame's two axes and of a sine and a cosine that are at hand; a hyperbola's is the same of sinh and cosh. Stays:
// with origin and axes as one struct, here, in curve_tangent and in curve_prepared, which was tried, a composite of arcs takes 2.2 % more
// instructions to draw, and a hyperbola 1.2 %.
#[tactic(auto, unfolding(crate::specs::Point::axes_point))]
pub fn axes_point(
    origin: Vec3,
    x: Vec3,
    y: Vec3,
    semi_major: f64,
    semi_minor: f64,
    sc: SinCos,
) -> Vec3
    ensures { result ≡ axes_point origin x y semi_major semi_minor sc.cos sc.sin }
{
    origin
        .add(x.scale(semi_major * sc.cos))
        .add(y.scale(semi_minor * sc.sin))
}

// The same of a frame.
fn around(frame: Frame, semi_major: f64, semi_minor: f64, sc: SinCos) -> Vec3
    ensures { result ≡ axes_point frame.origin frame.ref_dir (y_dir frame) semi_major semi_minor sc.cos sc.sin }
{
    axes_point(
        frame.origin,
        frame.ref_dir,
        frame.y_dir(),
        semi_major,
        semi_minor,
        sc,
    )
}

// A parabola's point, of its frame's two axes.
#[tactic(auto, unfolding(crate::specs::Point::parabola_point))]
pub fn parabola_point(origin: Vec3, x: Vec3, y: Vec3, focal_dist: f64, t: f64) -> Vec3
    ensures { result ≡ parabola_point origin x y focal_dist t }
{
    origin
        .add(x.scale(focal_dist * t * t))
        .add(y.scale(2.0 * focal_dist * t))
}

// The sine and cosine that a row's point is made of, a hyperbola's sinh and cosh. Stays: zeros for any other row, which reads neither; an Option
// would be taken apart in each arm that does.
#[tactic(auto, unfolding(crate::specs::Own::Turn::sin_cos_for, arith_exp::specs::Own::Hyperbolic::hyperbolic_of))]
fn turn_of(kind: Option<Kind>, t: f64) -> SinCos
    ensures { result ≡ sin_cos_for kind t }
{
    match kind {
        Some(Kind::Circle) => arith_trig::sin_cos(t),
        Some(Kind::Ellipse) => arith_trig::sin_cos(t),
        Some(Kind::Hyperbola) => {
            let h = arith_exp::cosh_sinh(t);
            SinCos {
                sin: h.sinh,
                cos: h.cosh,
            }
        }
        _ => SinCos { sin: 0.0, cos: 0.0 },
    }
}

// Curve::point_at: the point at t of the curve of a row. Stays: tables and row stand for the Rust's one curve; where many points of it are
// wanted the struct is `curve_prepared::PreparedCurve`.
#[cycle(composite_at_point_at)]
pub fn point_at(tables: &LentTables<'_>, row: u32, t: f64) -> Vec3
    ensures { result ≡ point_at (tree (lent tables.now) row) t }
{
    let r = curve_parameter::under_trims(tables.curves, row);
    // Before the row, whose nine floats need not be kept over the call.
    let sc = turn_of(brep::kind_at(tables.curves, r), t);
    let c = brep::row_at(tables.points, tables.curves, tables.reals, r);
    match c {
        Curve::Line { origin, direction } => origin.add(direction.scale(t)),
        Curve::Circle { frame, radius } => around(frame, radius, radius, sc),
        Curve::Ellipse {
            frame,
            semi_major,
            semi_minor,
        } => around(frame, semi_major, semi_minor, sc),
        Curve::Parabola { frame, focal_dist } => {
            parabola_point(frame.origin, frame.ref_dir, frame.y_dir(), focal_dist, t)
        }
        Curve::Polyline(vertices) => {
            let closed = curve_parameter::closes_at(tables.points, vertices);
            polyline_point(tables.points, vertices, closed, t)
        }
        // Its base does not fall.
        Curve::Trimmed { base: _, range: _ } => Vec3::ZERO,
        Curve::Composite(segments) => composite_at(tables, r, segments, t),
        Curve::Hyperbola {
            frame,
            semi_major,
            semi_minor,
        } => around(frame, semi_major, semi_minor, sc),
    }
}

// The point of a composite's run of segments; their curves lie in rows below row. Stays: here, in curve_tangent and in curve_prepared a
// struct of row and run would be made at the one call and taken apart.
#[cycle(composite_at_point_at)]
fn composite_at(tables: &LentTables<'_>, row: u32, segments: Run, t: f64) -> Vec3
    ensures { result ≡ point_at (run_of (lent tables.now) row segments.first segments.count) t }
{
    let Some(on) = curve_parameter::segment_under(tables.parts, tables.ranges, segments, t) else {
        return Vec3::ZERO;
    };
    let base = on.segment.curve;
    if base < row {
        return point_at(tables, base, on.t);
    }
    Vec3::ZERO
}
