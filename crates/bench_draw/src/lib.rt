#![tactic(auto)]
// What bench/draw.rs times beside drawing and has no C name in cornsunset: a point of a curve, sorting breaks, clearing a buffer.
ghost use Rattle.std.specs.Prelude.{◌≡◌, [], cond, length, leb};
ghost use Rattle.base_lists.specs.Room.{filled};
ghost use Rattle.knots_sort.specs.Own.Sortable.{most_knots};
ghost use Rattle.knots_inside.specs.Breaks.{inside_of};
ghost use Rattle.brep.specs.Rows.{given};
ghost use Rattle.brep.specs.Tree.{tree};
ghost use Rattle.curve.specs.Eval.{point_at};

use brep::LentTables;

// A point of a row's curve.
#[unsafe(no_mangle)]
pub extern "C" fn cs_point_at(
    points: &[f64],
    curves: &[u32],
    reals: &[f64],
    parts: &[u32],
    ranges: &[f64],
    row: u32,
    t: f64,
    x: &mut f64,
    y: &mut f64,
    z: &mut f64,
)
    ensures { (x.new ≡ (point_at (tree (given points curves reals parts ranges) row) t).x) × (y.new ≡ (point_at (tree (given points curves reals parts ranges) row) t).y) × (z.new ≡ (point_at (tree (given points curves reals parts ranges) row) t).z) }
{
    let tables = LentTables {
        points,
        curves,
        reals,
        parts,
        ranges,
    };
    let p = curve::point_at(&tables, row, t);
    *x = p.x;
    *y = p.y;
    *z = p.z;
}

// The breaks inside a range, of knots in any order; none, and the knots as before, where there are more than can be sorted.
#[unsafe(no_mangle)]
pub extern "C" fn cs_breaks(knots: &mut [f64], lo: f64, hi: f64) -> usize
    ensures { (result ≡ cond (leb (length knots.old) most_knots) (length (inside_of knots.old lo hi)) 0)
        × (knots.new ≡ cond (leb (length knots.old) most_knots) (filled (length knots.old) (inside_of knots.old lo hi)) knots.old) }
{
    if knots.len() <= knots_sort::MOST_KNOTS {
        return knots_inside::inside(knots, lo, hi);
    }
    0
}

// +0.0 in all of a buffer, as drawing does it.
#[unsafe(no_mangle)]
pub extern "C" fn cs_clear(buffer: &mut [f64])
    ensures { buffer.new ≡ filled (length buffer.old) [] }
{
    base_lists::clear_from(buffer, 0);
}
