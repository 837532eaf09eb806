#![tactic(auto)]
// thin_breaks of knots.rs: the breaks that a curve bends across.
ghost use Rattle.std.specs.Prelude.{◌≡◌, ◌+◌, ◌<◌, ◌≤◌, length, drop};
ghost use Rattle.base_lists.specs.Room.{filled};
ghost use Rattle.knots_sort.specs.Own.Sortable.{most_knots};
ghost use Rattle.knots_inside.specs.Thinned.{next_of};
ghost use Rattle.brep.specs.Rows.{lent};
ghost use Rattle.brep.specs.Tree.{tree};
ghost use Rattle.curve.specs.Eval.{point_at};
ghost use Rattle.knots_thin.specs.Own.Kept.{curve_deviation, kept_answer, kept_after};
ghost use Rattle.knots_thin.specs.Thin.{curve_thinned};

use brep::LentTables;
use math::{Interval, Vec3};
use options::Mode;

// How far the curve of a row leaves the chord from a to b; pa is its point at a.
pub fn deviation(tables: &LentTables<'_>, row: u32, a: f64, b: f64, pa: Vec3) -> f64
    requires { pa ≡ point_at (tree (lent tables.now) row) a }
    ensures { result ≡ curve_deviation (tree (lent tables.now) row) a b }
{
    let pb = curve::point_at(tables, row, b);
    let width = b - a;
    let p1 = curve::point_at(tables, row, a + width * 0.25);
    let p2 = curve::point_at(tables, row, a + width * 0.5);
    let p3 = curve::point_at(tables, row, a + width * 0.75);
    knots::worst_of(pa, pb, &[p1, p2, p3])
}

// The break after number i, or the range's end. Stays: a slice and a place in it, since `thin_breaks` writes to the slice that it reads by number.
pub fn next_of(breaks: &[f64], i: usize, hi: f64) -> f64
    requires { i < length breaks.now }
    ensures { result ≡ next_of hi (drop (i + 1) breaks.now) }
{
    breaks.get(i + 1).copied().unwrap_or(hi)
}

// Keeps the breaks that the curve bends across, from the start of breaks, and +0.0 after them; answers how many. Stays: not by `keep_if` of
// knots_inside, since this test looks at the break after too, and asks that pa is the point of start, which a closure could not say of what it holds.
// Tables, row and range as for `knots::curve_breaks`.
fn thin_breaks(
    tables: &LentTables<'_>,
    row: u32,
    range: Interval,
    sag: f64,
    breaks: &mut [f64],
) -> usize
    ensures count { result ≡ length (curve_thinned (tree (lent tables.now) row) breaks.old range.lo range.hi sag) }
    ensures buffer { breaks.new ≡ filled (length breaks.old) (curve_thinned (tree (lent tables.now) row) breaks.old range.lo range.hi sag) }
{
    if !(0.0 < sag) {
        return breaks.len();
    }
    let mut start = range.lo;
    let mut pa = curve::point_at(tables, row, range.lo);
    let mut k = 0;
    for i in 0..breaks.len() {
        let b = breaks[i];
        let next = next_of(breaks, i, range.hi);
        if sag < deviation(tables, row, start, next, pa) {
            breaks[k] = b;
            k += 1;
            start = b;
            pa = curve::point_at(tables, row, b);
        }
    }
    base_lists::clear_from(breaks, k);
    k
}

// The breaks of the curve of a row inside a range that it bends across, in a mode, from the start of out, and +0.0 after them; none where its
// knots do not fit. Stays: tables, row, range and out, as for `knots::curve_breaks`.
pub fn kept_breaks(
    tables: &LentTables<'_>,
    row: u32,
    range: Interval,
    mode: Mode,
    sag: f64,
    out: &mut [f64],
) -> Option<usize>
    requires { length out.old ≤ most_knots }
    ensures { (result ≡ kept_answer (length out.old) mode (tree (lent tables.now) row) range.lo range.hi sag)
        × (out.new ≡ kept_after out.old mode (tree (lent tables.now) row) range.lo range.hi sag) }
{
    let n = knots_breaks::breaks_in(tables, row, range, mode, out)?;
    Some(thin_breaks(tables, row, range, sag, &mut out[..n]))
}
