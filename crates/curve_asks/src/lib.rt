#![tactic(auto)]
// Whether a curve asks a hyperbola for a parameter that is too far, and whether it may at all: a look at the rows that spares most
// curves a look at their parameters. The slices are lent one by one, and not as tables: what is read decides it, so that each contract
// holds whatever the other tables hold.
ghost use Rattle.std.specs.Prelude.{◌≡◌, true, false, not, List, ℕ, ◌+◌, Float};
ghost use Rattle.brep.specs.Rows.{tables, segment_of};
ghost use Rattle.brep.specs.Tree.{tree};
ghost use Rattle.curve_asks.specs.Asks.{is_far, asks_far};
ghost use Rattle.curve_asks.specs.Own.Numbers.{run_may_ask};
ghost use Rattle.curve_asks.specs.Own.Risk.{in_reach, is_calm, never_asks, some_hyperbola, may_ask};

use brep::{Kind, Run};
use curve_parameter::under_trims;
use math::Interval;

// Beyond 100 in magnitude. A NaN is not. Stays: at a NaN neither this nor `in_reach` holds, so that neither is the other's opposite.
#[tactic(auto, using(crate::proofs::Farthest::hundred, crate::proofs::Farthest::minus_hundred), unfolding(crate::specs::Asks::is_far))]
fn is_far(t: f64) -> bool
    ensures { result ≡ is_far t }
{
    100.0 < t || t < -100.0
}

// Whether the curve of a row, asked for its point at t, asks a hyperbola for a parameter that is too far. A composite asks for one on
// the segment that t falls on, whose curve lies in a lower row. Stays: the slices one by one, since the contract holds whatever the
// others hold; and parts and ranges are two, since C lends the tables so.
pub fn far_at(curves: &[u32], parts: &[u32], ranges: &[f64], row: u32, t: f64) -> bool
    ensures { (points reals : List Float) → result ≡ asks_far (tree (tables points curves.now reals parts.now ranges.now) row) t }
{
    let r = under_trims(curves, row);
    let kind = brep::kind_at(curves, r);
    if kind == Some(Kind::Composite) {
        let run = brep::run_at(curves, r);
        let Some(on) = curve_parameter::segment_under(parts, ranges, run, t) else {
            return false;
        };
        let base = on.segment.curve;
        return base < r && far_at(curves, parts, ranges, base, on.t);
    }
    kind == Some(Kind::Hyperbola) && is_far(t)
}

// From -100 to 100.
#[tactic(auto, using(crate::proofs::Farthest::hundred, crate::proofs::Farthest::minus_hundred))]
pub fn in_reach(t: f64) -> bool
    ensures { result ≡ in_reach t }
{
    -100.0 <= t && t <= 100.0
}

// Whether no part of a segment with this range leads to a parameter that is too far. The third test is of the high end as it is
// rounded on the way there, which may lie beyond the high end itself.
#[tactic(auto, unfolding(crate::specs::Own::Risk::is_calm))]
fn is_calm(range: Interval) -> bool
    ensures { result ≡ is_calm range }
{
    in_reach(range.lo) && in_reach(range.hi) && in_reach(range.at(1.0))
}

// Whether the range of segment number i of the run that starts at first is not calm.
fn is_wild(parts: &[u32], ranges: &[f64], first: u32, i: u32) -> bool
    ensures { result ≡ not (is_calm (segment_of parts.now ranges.now (first + i)).range) }
{
    !is_calm(brep::segment_at(parts, ranges, first, i).range)
}

// Whether some row is a hyperbola's.
fn some_hyperbola(curves: &[u32]) -> bool
    ensures { result ≡ some_hyperbola curves.now }
{
    curves
        .chunks_exact(3)
        .any(|row| Kind::of(row[0]) == Some(Kind::Hyperbola))
}

// Whether a composite's run of segments may ask. The rows are gone through only where a composite lies among the segments: what
// it holds is not looked at. Stays: by number, since a segment behind the table's end reads as 0 and NaN (brep), and no slice has one.
#[tactic(auto, using(crate::proofs::Laws::some_more, crate::proofs::Laws::some_at, curve_nests::proofs::Laws::is_kind_below))]
fn run_may_ask(curves: &[u32], parts: &[u32], ranges: &[f64], row: u32, run: Run) -> bool
    ensures { result ≡ run_may_ask curves.now parts.now ranges.now row run.first run.count }
{
    let mut composite = false;
    for i in 0..run.count {
        let base = brep::int_at(parts, (run.first as usize + i as usize) * 2);
        let kind = curve_nests::kind_below(curves, row, base);
        if kind == Some(Kind::Hyperbola) && is_wild(parts, ranges, run.first, i) {
            return true;
        }
        composite |= kind == Some(Kind::Composite);
    }
    composite && some_hyperbola(curves)
}

// Whether a row's number is below those of trims, composites and hyperbolas: then it asks no hyperbola for anything. `false` says nothing. Stays:
// the number is compared, since those three kinds and what is none behind them are one range of numbers.
pub fn never_asks(curves: &[u32], row: u32) -> bool
    ensures { (result ≡ never_asks curves.now row) × ((points reals : List Float) (parts : List ℕ) (ranges : List Float) → result ≡ true → (t : Float) → asks_far (tree (tables points curves.now reals parts ranges) row) t ≡ false) }
{
    brep::int_at(curves, row as usize * 3) < Kind::Trimmed as u32
}

// Whether the curve of a row may ask a hyperbola for a parameter that is too far, at some t. Where it may not, it does at none.
pub fn may_ask(curves: &[u32], parts: &[u32], ranges: &[f64], row: u32) -> bool
    ensures { (points reals : List Float) → (result ≡ may_ask (some_hyperbola curves.now) (tree (tables points curves.now reals parts.now ranges.now) row)) × (result ≡ false → (t : Float) → asks_far (tree (tables points curves.now reals parts.now ranges.now) row) t ≡ false) }
{
    let r = under_trims(curves, row);
    let kind = brep::kind_at(curves, r);
    if kind == Some(Kind::Composite) {
        return run_may_ask(curves, parts, ranges, r, brep::run_at(curves, r));
    }
    kind == Some(Kind::Hyperbola)
}
