#![tactic(auto)]
// Two closures of repair_runaway: does a chain leave the reference box, and which parameter is nearest to a vertex.
ghost use Rattle.std.specs.Prelude.{◌≡◌, true, false, [], ◌∷◌, Float};
ghost use Rattle.std.specs.Float.Ieee.{lt, le};
ghost use Rattle.arith.specs.Notation.{◌⊗◌, plus_zero};
ghost use Rattle.arith_root.specs.Root.{root_of};
ghost use Rattle.arith_root_limit.specs.Own.Limit.{cut_if};
ghost use Rattle.brep.specs.Rows.{lent};
ghost use Rattle.brep.specs.Tree.{tree};
ghost use Rattle.draw_spec.specs.Repair.{escape_limit, escapes, sweep_at, nearest};
ghost use Rattle.edge_escape.specs.Own.Best.{measured, nearer_of};
ghost use Rattle.edge_record.specs.Own.Records.{records_of};

use arith_root_limit::Limit;
use brep::LentTables;
use curve_prepared::PreparedCurve;
use edge_record::WIDTH;
use math::{Aabb, Interval, Vec3};
use options::Resolved;

// How many steps `nearest` takes along the natural range.
const STEPS: u32 = 512;

// A parameter, and the squared distance of its point to the target.
#[derive(Clone, Copy)]
struct Best {
    param: f64,
    square: f64,
}

// The parameters that are nearest to an edge's two vertices.
#[derive(Clone, Copy)]
pub struct Ends {
    pub start: f64,
    pub end: f64,
}

// Whether no point of the chain lies further from the box's centre than its diagonal, whose square is given, by the squares. `false` says
// nothing. Stays: the Rust's closure holds centre and limit; here the limit's root is mostly spared, and a struct of box and options would be
// made for each of the two calls.
fn all_near(reference: Aabb, r: Resolved, square: f64, chain: &[f64]) -> bool
    requires { le (root_of square) (escape_limit reference r) ≡ true }
    ensures { result ≡ true → false ≡ escapes reference r (records_of chain.now) }
{
    let centre = reference.centre();
    chain
        .chunks_exact(WIDTH)
        .all(|record| edge_record::record_point(record, 0)
            .sub(centre)
            .length_squared()
            <= square)
}

// Whether the squares tell that no point of the chain lies further from the box's centre than its diagonal and 16 sags. `false` says
// nothing.
fn is_near(reference: Aabb, r: Resolved, chain: &[f64]) -> bool
    ensures { result ≡ true → false ≡ escapes reference r (records_of chain.now) }
{
    let square = reference.size().length_squared();
    let sag = r.sag;
    if 0.0 <= sag && 0.0 <= square {
        return all_near(reference, r, square, chain);
    }
    false
}

// Whether two points lie within the box's diagonal of its centre, by the squares: then no chain of the two escapes, whatever its sag, if
// that is not below zero. `false` says nothing.
pub fn are_near(reference: Aabb, p: Vec3, q: Vec3) -> bool
    ensures { result ≡ true → (r : Resolved) → le plus_zero r.sag ≡ true → (s t : Float) → false ≡ escapes reference r (record { point = p; param = s } ∷ record { point = q; param = t } ∷ []) }
{
    let square = reference.size().length_squared();
    let centre = reference.centre();
    let s = p.sub(centre).length_squared();
    let t = q.sub(centre).length_squared();
    if 0.0 <= square && s <= square {
        return t <= square;
    }
    false
}

// Whether the root of s is above the limit. Up to a cut that is the limit's own square no root is taken, so that a chain just inside the limit
// takes none.
fn is_beyond(s: f64, limit: Limit, cut: f64) -> bool
    ensures { cut ≡ cut_if (le (root_of (limit ⊗ limit)) limit) (limit ⊗ limit) → result ≡ lt limit (root_of s) }
{
    if s <= cut {
        return false;
    }
    limit.is_root_above(s)
}

// Whether a point of the chain lies further from the box's centre than its diagonal and 16 sags.
pub fn escapes(reference: Aabb, r: Resolved, chain: &[f64]) -> bool
    ensures { result ≡ escapes reference r (records_of chain.now) }
{
    // Most chains lie within the box, and need no root.
    if is_near(reference, r, chain) {
        return false;
    }
    let at = reference.diagonal() + r.sag * 16.0;
    let square = at * at;
    let cut = arith_root_limit::cut_if(arith_root::root(square) <= at, square);
    let limit = Limit::new(at);
    let centre = reference.centre();
    chain.chunks_exact(WIDTH).any(|record| {
        let p = edge_record::record_point(record, 0);
        is_beyond(p.sub(centre).length_squared(), limit, cut)
    })
}

fn measured(target: Vec3, t: f64, p: Vec3) -> Best
    ensures { result ≡ measured target t p }
{
    Best {
        param: t,
        square: p.sub(target).length_squared(),
    }
}

// The parameter t with its point p where that is strictly nearer.
fn nearer(best: Best, target: Vec3, t: f64, p: Vec3) -> Best
    ensures { result ≡ nearer_of best (measured target t p) }
{
    let next = measured(target, t, p);
    if arith_root_limit::is_below(next.square, best.square) {
        return next;
    }
    best
}

// Parameter number i of those that `nearest` looks at.
fn sweep_at(natural: Interval, i: u32) -> f64
    ensures { result ≡ sweep_at natural i }
{
    natural.at(i as f64 / 512.0)
}

// Of 513 parameters spread evenly over the natural range, those whose points are nearest to the two vertices, the first of equals.
pub fn nearest(tables: &LentTables<'_>, row: u32, start: Vec3, end: Vec3) -> Ends
    ensures { (result.start ≡ nearest (tree (lent tables.now) row) start) × (result.end ≡ nearest (tree (lent tables.now) row) end) }
{
    let natural = curve::natural_range(tables, row);
    let curve = PreparedCurve::new(tables, row);
    let first = sweep_at(natural, 0);
    let p = curve.point(first);
    let mut a = measured(start, first, p);
    let mut b = measured(end, first, p);
    // One sweep for both vertices: each parameter's point is asked for once, and no slice is indexed.
    for i in 0..STEPS {
        let t = sweep_at(natural, i + 1);
        let q = curve.point(t);
        a = nearer(a, start, t, q);
        b = nearer(b, end, t, q);
    }
    Ends {
        start: a.param,
        end: b.param,
    }
}
