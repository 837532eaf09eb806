#![tactic(auto)]
// A curve prepared for many points: its trims taken off, its row read and the second axis of its frame worked out once.
ghost use Rattle.std.specs.Prelude.{◌≡◌, List, ℕ, ◌+◌, Float};
ghost use Rattle.brep.specs.Rows.{tables, lent, point_of};
ghost use Rattle.brep.specs.Own.RunOf.{run_of};
ghost use Rattle.brep.specs.Tree.{tree, run};
ghost use Rattle.curve_parameter.specs.Run.{closes};
ghost use Rattle.curve_point.specs.Point.{polyline_point, point_at};
ghost use Rattle.curve_tangent.specs.Derivative.{polyline_derivative, derivative_at, tangent_at};
ghost use Rattle.curve_prepared.specs.declared.Prepared.TheVariants.{Line, Other};
ghost use Rattle.curve_prepared.specs.Own.Prepared.{round_of, parabola_of, prepared_of, line_only, hyperbola_slope, plain_point};

use brep::{Kind, LentTables, Run};
use math::{Frame, Vec3};

// Axes are as they are: nothing is normalised. A circle is round with equal axes.
#[derive(Clone, Copy, Debug)]
pub enum Prepared {
    Line {
        origin: Vec3,
        direction: Vec3,
    },
    Round {
        origin: Vec3,
        x: Vec3,
        y: Vec3,
        major: f64,
        minor: f64,
    },
    Parabola {
        origin: Vec3,
        x: Vec3,
        y: Vec3,
        focal_dist: f64,
    },
    // A polyline, a composite or a hyperbola, whose row is looked up at each point. Whether a polyline is closed is worked out once. Stays: with
    // a hyperbola of its own here circles took 16 % more instructions (docs/DECISIONS.md, 45): the function that takes a point apart by these
    // cases is then no longer read in place where many points are wanted.
    Other {
        closed: bool,
    },
}

// The curve of a row of the tables, prepared.
#[derive(Clone, Copy, Debug)]
pub struct PreparedCurve<'a> {
    pub tables: &'a LentTables<'a>,
    pub row: u32,
    pub prepared: Prepared,
    ghost own: { prepared ≡ prepared_of (tree (lent tables.now) row) },
}

// A circle's or an ellipse's. Stays: a parabola is another case, with one number; what both have is not one struct, as at curve_point::axes_point.
fn round_of(frame: Frame, major: f64, minor: f64) -> Prepared
    ensures { result ≡ round_of frame major minor }
{
    Prepared::Round {
        origin: frame.origin,
        x: frame.ref_dir,
        y: frame.y_dir(),
        major,
        minor,
    }
}

fn parabola_of(frame: Frame, focal_dist: f64) -> Prepared
    ensures { result ≡ parabola_of frame focal_dist }
{
    Prepared::Parabola {
        origin: frame.origin,
        x: frame.ref_dir,
        y: frame.y_dir(),
        focal_dist,
    }
}

fn line_of(points: &[f64], first: u32) -> Prepared
    ensures { result ≡ Line (point_of points.now first) (point_of points.now (first + 1)) }
{
    Prepared::Line {
        origin: brep::point(points, first),
        direction: brep::point_in(points, first, 1),
    }
}

// The curve of a row prepared where it is a line under its trims, without what other kinds would need. Stays: any other is told as `Other`, as
// `prepare` tells most; an Option of two bare vectors would name neither.
pub fn line_under(points: &[f64], curves: &[u32], row: u32) -> Prepared
    ensures { (reals : List Float) (parts : List ℕ) (ranges : List Float) → result ≡ line_only (prepared_of (tree (tables points.now curves.now reals parts ranges) row)) }
{
    let r = curve_parameter::under_trims(curves, row);
    if brep::kind_at(curves, r) == Some(Kind::Line) {
        line_of(points, brep::int_at(curves, r as usize * 3 + 1))
    } else {
        Prepared::Other { closed: false }
    }
}

// The curve of a row, by its kind under its trims.
pub fn prepare(tables: &LentTables<'_>, row: u32) -> Prepared
    ensures { result ≡ prepared_of (tree (lent tables.now) row) }
{
    let r = curve_parameter::under_trims(tables.curves, row);
    let run = brep::run_at(tables.curves, r);
    match brep::kind_at(tables.curves, r) {
        Some(Kind::Line) => line_of(tables.points, run.first),
        Some(Kind::Circle) => {
            let p = brep::float_at(tables.reals, r as usize * 2);
            round_of(brep::frame_at(tables.points, run.first), p, p)
        }
        Some(Kind::Ellipse) => {
            let p = brep::float_at(tables.reals, r as usize * 2);
            let q = brep::float_at(tables.reals, r as usize * 2 + 1);
            round_of(brep::frame_at(tables.points, run.first), p, q)
        }
        Some(Kind::Parabola) => {
            let p = brep::float_at(tables.reals, r as usize * 2);
            parabola_of(brep::frame_at(tables.points, run.first), p)
        }
        Some(Kind::Polyline) => {
            let closed = curve_parameter::closes_at(tables.points, run);
            Prepared::Other { closed }
        }
        // Its base does not fall.
        Some(Kind::Trimmed) => Prepared::Other { closed: false },
        Some(Kind::Composite) => Prepared::Other { closed: false },
        Some(Kind::Hyperbola) => Prepared::Other { closed: false },
        None => Prepared::Other { closed: false },
    }
}

// The point at t of a curve prepared that needs no tables. Stays: zero of one that does, which no caller asks for; where many points are wanted, an
// Option would be taken apart at each of them.
#[tactic(auto, unfolding(crate::specs::Own::Prepared::plain_point, arith_trig::specs::Own::SinCos::sin_cos_of))]
pub fn plain_point(prepared: Prepared, t: f64) -> Vec3
    ensures { result ≡ plain_point prepared t }
{
    match prepared {
        Prepared::Line { origin, direction } => origin.add(direction.scale(t)),
        Prepared::Round {
            origin,
            x,
            y,
            major,
            minor,
        } => curve_point::axes_point(origin, x, y, major, minor, arith_trig::sin_cos(t)),
        Prepared::Parabola {
            origin,
            x,
            y,
            focal_dist,
        } => curve_point::parabola_point(origin, x, y, focal_dist, t),
        Prepared::Other { closed: _ } => Vec3::ZERO,
    }
}

// The point at t of a polyline, a composite or a hyperbola. A polyline's row is read as far as it is needed.
fn other_point(tables: &LentTables<'_>, row: u32, closed: bool, t: f64) -> Vec3
    requires { Other closed ≡ prepared_of (tree (lent tables.now) row) }
    ensures { result ≡ point_at (tree (lent tables.now) row) t }
{
    let r = curve_parameter::under_trims(tables.curves, row);
    if brep::kind_at(tables.curves, r) == Some(Kind::Polyline) {
        let run = brep::run_at(tables.curves, r);
        curve_point::polyline_point(tables.points, run, closed, t)
    } else {
        curve_point::point_at(tables, row, t)
    }
}

// A hyperbola's derivative at t, of its row.
#[tactic(auto, unfolding(crate::specs::Own::Prepared::hyperbola_slope))]
fn hyperbola_slope(points: &[f64], curves: &[u32], reals: &[f64], row: u32, t: f64) -> Vec3
    ensures { result ≡ hyperbola_slope points.now curves.now reals.now row t }
{
    let first = brep::int_at(curves, row as usize * 3 + 1);
    let frame = brep::frame_at(points, first);
    let p = brep::float_at(reals, row as usize * 2);
    let q = brep::float_at(reals, row as usize * 2 + 1);
    curve_tangent::hyperbola_derivative(frame.ref_dir, frame.y_dir(), p, q, t)
}

// The derivative at t of a polyline, a composite or a hyperbola. Stays: not by `curve_tangent::derivative_at`, which reads a row by value: drawing
// a composite of arcs took 10 % more instructions then, and a hyperbola 8 %.
#[cycle(derivative)]
fn other_derivative<'a>(tables: &'a LentTables<'a>, row: u32, closed: bool, t: f64) -> Vec3
    requires { Other closed ≡ prepared_of (tree (lent tables.now) row) }
    ensures { result ≡ derivative_at (tree (lent tables.now) row) t }
{
    let r = curve_parameter::under_trims(tables.curves, row);
    let Some(kind) = brep::kind_at(tables.curves, r) else {
        return Vec3::ZERO;
    };
    match kind {
        Kind::Polyline => {
            let run = brep::run_at(tables.curves, r);
            curve_tangent::polyline_derivative(tables.points, run, closed, t)
        }
        Kind::Composite => composite_slope(tables, r, brep::run_at(tables.curves, r), t),
        Kind::Hyperbola => hyperbola_slope(tables.points, tables.curves, tables.reals, r, t),
        // A trim whose base does not fall: no points. (No other kind is prepared as `Other`.)
        _ => Vec3::ZERO,
    }
}

// The derivative of a composite's run of segments; their curves lie in rows below row. Each is prepared, as the composite was.
#[cycle(derivative)]
fn composite_slope<'a>(tables: &'a LentTables<'a>, row: u32, segments: Run, t: f64) -> Vec3
    ensures { result ≡ derivative_at (run_of (lent tables.now) row segments.first segments.count) t }
{
    let Some(on) = curve_parameter::segment_under(tables.parts, tables.ranges, segments, t) else {
        return Vec3::ZERO;
    };
    let base = on.segment.curve;
    let k = curve_tangent::signed_span(on.segment.range, on.segment.same_sense);
    if base < row {
        return PreparedCurve::new(tables, base).derivative(on.t).scale(k);
    }
    Vec3::ZERO.scale(k)
}

impl<'a> PreparedCurve<'a> {
    ghost use Rattle.std.specs.Prelude.{◌≡◌};
    ghost use Rattle.brep.specs.Rows.{lent};
    ghost use Rattle.brep.specs.Tree.{tree};
    ghost use Rattle.curve_point.specs.Point.{point_at};
    ghost use Rattle.curve_tangent.specs.Derivative.{derivative_at, tangent_at};
    ghost use Rattle.curve_prepared.specs.Own.PreparedCurve.{curve_of};

    // The curve of a row, prepared.
    pub fn new(tables: &'a LentTables<'a>, row: u32) -> PreparedCurve<'a>
        ensures tables { result.tables.now ≡ tables.now }
        ensures row { result.row ≡ row }
    {
        PreparedCurve {
            tables,
            row,
            prepared: prepare(tables, row),
        }
    }

    // Its point at t.
    pub fn point(&self, t: f64) -> Vec3
        ensures { result ≡ point_at (curve_of self.now) t }
    {
        match self.prepared {
            Prepared::Other { closed } => other_point(self.tables, self.row, closed, t),
            plain => plain_point(plain, t),
        }
    }

    // Its derivative at t.
    #[cycle(derivative)]
    pub fn derivative(&self, t: f64) -> Vec3
        ensures { result ≡ derivative_at (curve_of self.now) t }
    {
        match self.prepared {
            Prepared::Line {
                origin: _,
                direction,
            } => direction,
            Prepared::Round {
                origin: _,
                x,
                y,
                major,
                minor,
            } => curve_tangent::ellipse_derivative(x, y, major, minor, t),
            Prepared::Parabola {
                origin: _,
                x,
                y,
                focal_dist,
            } => curve_tangent::parabola_derivative(x, y, focal_dist, t),
            Prepared::Other { closed } => other_derivative(self.tables, self.row, closed, t),
        }
    }

    // The direction of its derivative at t, where that has one.
    pub fn tangent(&self, t: f64) -> Option<Vec3>
        ensures { result ≡ tangent_at (curve_of self.now) t }
    {
        self.derivative(t).try_normalized()
    }
}
