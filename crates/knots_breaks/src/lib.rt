#![tactic(auto)]
// The breaks of a curve inside a range, in either mode.
ghost use Rattle.std.specs.Prelude.{◌≡◌, ◌≤◌, length};
ghost use Rattle.brep.specs.Rows.{lent};
ghost use Rattle.brep.specs.Tree.{tree};
ghost use Rattle.options.specs.declared.Mode.TheVariants.{Strict};
ghost use Rattle.knots_sort.specs.Own.Sortable.{most_knots};
ghost use Rattle.knots.specs.Own.Gathered.{knots_counted, buffer_after};
ghost use Rattle.knots_breaks.specs.Breaks.{wholes, breaks_in};

use brep::LentTables;
use math::Interval;
use options::Mode;

// The whole numbers 1, 2, 3 and so on, as many as out is long.
fn store_wholes(out: &mut [f64])
    ensures { out.new ≡ wholes 1 (length out.old) }
{
    for (i, x) in out.iter_mut().enumerate() {
        *x = std::num::nearest_u64_to_f64(i as u64 + 1);
    }
}

// The breaks of strict mode, where one segment meets the next: each is a break, however close the one after it is. A curve is turned away
// where its knots, two a segment, do not fit, as in the other mode, though its breaks are fewer. Stays: tables, row, range and out, as for
// `knots::curve_breaks`.
fn strict_breaks(
    tables: &LentTables<'_>,
    row: u32,
    range: Interval,
    out: &mut [f64],
) -> Option<usize>
    ensures answer { result ≡ knots_counted (length out.old) (tree (lent tables.now) row) (breaks_in Strict (tree (lent tables.now) row) range.lo range.hi) }
    ensures buffer { out.new ≡ buffer_after out.old (tree (lent tables.now) row) (breaks_in Strict (tree (lent tables.now) row) range.lo range.hi) }
{
    let n = knots::knot_count(tables, row);
    if out.len() < n {
        return None;
    }
    let meetings = (n / 2).saturating_sub(1);
    let places = &mut out[..meetings];
    store_wholes(places);
    let k = knots_inside::passing(places, range.lo, range.hi);
    base_lists::clear_from(out, k);
    Some(k)
}

// The breaks of the curve of a row inside a range, from the start of out, and +0.0 after them; none where its knots do not fit. Stays: two cases, two
// calls; a closure in the mode's place would be chosen by this same match. Tables, row, range and out as for `knots::curve_breaks`.
#[tactic(auto, unfolding(crate::specs::Breaks::breaks_in))]
pub fn breaks_in(
    tables: &LentTables<'_>,
    row: u32,
    range: Interval,
    mode: Mode,
    out: &mut [f64],
) -> Option<usize>
    requires { length out.old ≤ most_knots }
    ensures { (result ≡ knots_counted (length out.old) (tree (lent tables.now) row) (breaks_in mode (tree (lent tables.now) row) range.lo range.hi))
        × (out.new ≡ buffer_after out.old (tree (lent tables.now) row) (breaks_in mode (tree (lent tables.now) row) range.lo range.hi)) }
{
    match mode {
        Mode::Reference => knots::curve_breaks(tables, row, range, out),
        Mode::Strict => strict_breaks(tables, row, range, out),
    }
}
