#![tactic(auto)]
// The rows of the tables: a curve row read as one of the eight kinds, a segment, a point, and the record of an edge.
// Stays: readers are total, since evaluators are, over tables of any content: past a table's end a float is NaN and a whole number 0.
ghost use Rattle.std.specs.Prelude.{◌≡◌, ◌+◌, get_or};
ghost use Rattle.std.specs.Float.{nan};
ghost use Rattle.brep.specs.Kind.{kind_numbered, kind_at};
ghost use Rattle.brep.specs.Rows.{point_of, frame_of, segment_of, kind_of, curve_of};
ghost use Rattle.brep.specs.Own.RunAt.{run_at};

use math::{Frame, Interval, Vec3};

// The largest tables: so many points, curve rows and segments.
pub const MOST_POINTS: usize = 65536;

pub const MOST_ROWS: usize = 4096;

pub const MOST_SEGMENTS: usize = 4096;

// The kinds of curves, under the numbers that curve rows have for them.
#[derive(Clone, Copy, Debug, PartialEq, Eq)]
pub enum Kind {
    Line = 1,
    Circle = 2,
    Ellipse = 3,
    Parabola = 4,
    Polyline = 5,
    Trimmed = 6,
    Composite = 7,
    Hyperbola = 8,
}

impl Kind {
    // The kind of a number. Any other number than 1 to 8 is that of none. Stays: an Option and no `TryFrom`, whose error would say no more than
    // that there is none.
    #[tactic(auto, unfolding(crate::specs::Kind::kind_numbered))]
    pub fn of(number: u32) -> Option<Kind>
        ensures { result ≡ kind_numbered number }
    {
        match number {
            1 => Some(Kind::Line),
            2 => Some(Kind::Circle),
            3 => Some(Kind::Ellipse),
            4 => Some(Kind::Parabola),
            5 => Some(Kind::Polyline),
            6 => Some(Kind::Trimmed),
            7 => Some(Kind::Composite),
            8 => Some(Kind::Hyperbola),
            _ => None,
        }
    }
}

// A curve row by value. Stays: where the Rust boxes a curve or owns a Vec, there is a row or a run of rows, since there is no heap: a trim's base is
// a curve row, a polyline's points are a run of the points, a composite's segments a run of the segments.
#[derive(Clone, Copy, Debug)]
pub enum Curve {
    Line {
        origin: Vec3,
        direction: Vec3,
    },
    Circle {
        frame: Frame,
        radius: f64,
    },
    Ellipse {
        frame: Frame,
        semi_major: f64,
        semi_minor: f64,
    },
    Parabola {
        frame: Frame,
        focal_dist: f64,
    },
    Polyline(Run),
    Trimmed {
        base: u32,
        range: Interval,
    },
    Composite(Run),
    Hyperbola {
        frame: Frame,
        semi_major: f64,
        semi_minor: f64,
    },
}

// The tables of a drawing: points, curve rows (whole numbers, and floats), segments (whole numbers, and floats). Stays: as C lends them, rows and
// segments in two lists each.
#[derive(Clone, Copy, Debug)]
pub struct LentTables<'a> {
    pub points: &'a [f64],
    pub curves: &'a [u32],
    pub reals: &'a [f64],
    pub parts: &'a [u32],
    pub ranges: &'a [f64],
}

// So many points or segments of a table, from number first on: a polyline's points, or a composite's segments.
#[derive(Clone, Copy, Debug)]
pub struct Run {
    pub first: u32,
    pub count: u32,
}

// CompositeSegment: a curve row, the part of it that is run through, and whether that is in its own direction.
#[derive(Clone, Copy, Debug)]
pub struct Segment {
    pub curve: u32,
    pub range: Interval,
    pub same_sense: bool,
}

// An edge, with the two points that are its box's least and greatest corners. Stays: the sense is the number as C hands it in, so that one that is
// neither 0 nor 1 can be turned away.
#[derive(Clone, Copy, Debug)]
pub struct Edge {
    pub curve: u32,
    pub start: u32,
    pub end: u32,
    pub sense: u32,
    pub range: Interval,
    pub tolerance: f64,
    pub low: u32,
    pub high: u32,
}

// An entry of a table; past its end, what stands for none.
fn at_or<T: Copy>(s: &[T], i: usize, none: T) -> T
    ensures { result ≡ get_or s.now i none }
{
    s.get(i).copied().unwrap_or(none)
}

// A whole number of a table; 0 past its end.
pub fn int_at(s: &[u32], i: usize) -> u32
    ensures { result ≡ get_or s.now i 0 }
{
    at_or(s, i, 0)
}

// A float of a table; NaN past its end.
pub fn float_at(s: &[f64], i: usize) -> f64
    ensures { result ≡ get_or s.now i nan }
{
    at_or(s, i, f64::NAN)
}

// A point that is not whole: each coordinate by its own test.
#[tactic(auto, unfolding(crate::specs::Rows::point_of))]
fn point_past_end(points: &[f64], first: u32, i: u32) -> Vec3
    ensures { result ≡ point_of points.now (first + i) }
{
    let at = (first as usize + i as usize) * 3;
    Vec3 {
        x: float_at(points, at),
        y: float_at(points, at + 1),
        z: float_at(points, at + 2),
    }
}

// Point number i of the run that starts at first. One test where the point is whole.
#[tactic(auto, unfolding(crate::specs::Rows::point_of))]
pub fn point_in(points: &[f64], first: u32, i: u32) -> Vec3
    ensures { result ≡ point_of points.now (first + i) }
{
    let at = (first as usize + i as usize) * 3;
    if at + 3 <= points.len() {
        return Vec3 {
            x: points[at],
            y: points[at + 1],
            z: points[at + 2],
        };
    }
    point_past_end(points, first, i)
}

// Point number i: the Rust's `solid.vertex(i)`.
pub fn point(points: &[f64], i: u32) -> Vec3
    ensures { result ≡ point_of points.now i }
{
    point_in(points, i, 0)
}

// The frame whose origin, axis and ref_dir are the points from first on, as they are.
#[tactic(auto, unfolding(crate::specs::Rows::frame_of))]
pub fn frame_at(points: &[f64], first: u32) -> Frame
    ensures { result ≡ frame_of points.now first }
{
    Frame {
        origin: point_in(points, first, 0),
        axis: point_in(points, first, 1),
        ref_dir: point_in(points, first, 2),
    }
}

// Segment number i of the run that starts at first. Stays: a segment lies in two lists, with its sense as a number, since C lends the tables so.
#[tactic(auto, unfolding(crate::specs::Rows::segment_of))]
pub fn segment_at(parts: &[u32], ranges: &[f64], first: u32, i: u32) -> Segment
    ensures { result ≡ segment_of parts.now ranges.now (first + i) }
{
    let at = (first as usize + i as usize) * 2;
    let range = Interval {
        lo: float_at(ranges, at),
        hi: float_at(ranges, at + 1),
    };
    Segment {
        curve: int_at(parts, at),
        range,
        same_sense: int_at(parts, at + 1) != 0,
    }
}

// The kind of a curve row; none where its number is no kind's.
pub fn kind_at(curves: &[u32], row: u32) -> Option<Kind>
    ensures { result ≡ kind_at curves.now row }
{
    Kind::of(int_at(curves, row as usize * 3))
}

// The run that a row's two numbers name.
pub fn run_at(curves: &[u32], row: u32) -> Run
    ensures { result ≡ run_at curves.now row }
{
    let at = row as usize * 3;
    Run {
        first: int_at(curves, at + 1),
        count: int_at(curves, at + 2),
    }
}

// A row's numbers as a curve of its kind; of an unknown kind, the empty polyline.
#[tactic(auto, unfolding(crate::specs::Rows::kind_of))]
fn kind_of(points: &[f64], kind: Option<Kind>, run: Run, p: f64, q: f64) -> Curve
    ensures { result ≡ kind_of points.now kind run.first run.count p q }
{
    let first = run.first;
    match kind {
        Some(Kind::Line) => Curve::Line {
            origin: point_in(points, first, 0),
            direction: point_in(points, first, 1),
        },
        Some(Kind::Circle) => Curve::Circle {
            frame: frame_at(points, first),
            radius: p,
        },
        Some(Kind::Ellipse) => Curve::Ellipse {
            frame: frame_at(points, first),
            semi_major: p,
            semi_minor: q,
        },
        Some(Kind::Parabola) => Curve::Parabola {
            frame: frame_at(points, first),
            focal_dist: p,
        },
        Some(Kind::Polyline) => Curve::Polyline(run),
        Some(Kind::Trimmed) => Curve::Trimmed {
            base: first,
            range: Interval { lo: p, hi: q },
        },
        Some(Kind::Composite) => Curve::Composite(run),
        Some(Kind::Hyperbola) => Curve::Hyperbola {
            frame: frame_at(points, first),
            semi_major: p,
            semi_minor: q,
        },
        None => Curve::Polyline(Run { first, count: 0 }),
    }
}

// Curve row number row.
#[tactic(auto, unfolding(crate::specs::Rows::curve_of))]
pub fn row_at(points: &[f64], curves: &[u32], reals: &[f64], row: u32) -> Curve
    ensures { result ≡ curve_of points.now curves.now reals.now row }
{
    let kind = kind_at(curves, row);
    let run = run_at(curves, row);
    let p = float_at(reals, row as usize * 2);
    let q = float_at(reals, row as usize * 2 + 1);
    kind_of(points, kind, run, p, q)
}
