#![tactic(auto)]
// A composite's segments as a lent run of segment records: the thin reader over `&[Segment]`. It picks the segment of a
// parameter, and hands its numbers to `curve`.
ghost use Rattle.std.specs.Prelude.{◌≡◌};
ghost use Rattle.brep.specs.Rows.{lent};
ghost use Rattle.curve.specs.Eval.{point_at};
ghost use Rattle.curve_segments.specs.Run.{composite_of, SameOverFlat};

use brep::{LentTables, Segment};
use math::Vec3;

// The point at t of the composite whose segments are run, and which row refers to. Of the row's own segments it is what
// `curve::point_at` answers. Stays: the steps of `curve_parameter::segment_under`, which reads a row's run of the tables; here the records
// are lent themselves, and as many as a slice may have.
pub fn point_of_run(tables: &LentTables<'_>, row: u32, run: &[Segment], t: f64) -> Vec3
    ensures { (result ≡ point_at (composite_of (lent tables.now) row run.now) t)
        × SameOverFlat (lent tables.now) row run.now }
{
    let count = run.len();
    let end = std::num::nearest_u64_to_f64(count as u64);
    let clamped = arith::clamp(t, 0.0, end);
    let index = curve_parameter::index_in(count.saturating_sub(1), clamped);
    let Some(s) = run.get(index) else {
        return Vec3::ZERO;
    };
    let local = clamped - std::num::nearest_u64_to_f64(index as u64);
    let u = curve_parameter::own_parameter(s.range, s.same_sense, local);
    if s.curve < row {
        return curve::point_at(tables, s.curve, u);
    }
    Vec3::ZERO
}
