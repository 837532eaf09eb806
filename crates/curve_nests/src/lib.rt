#![tactic(auto)]
// Whether a row's curve is a composite with a composite among its segments: where it is not, no evaluation goes deeper than a
// composite and one of its segments, whatever the other rows hold. What is read decides it, so that the contract of `nests` holds
// whatever the other tables hold.
ghost use Rattle.std.specs.Prelude.{◌≡◌, List, ℕ, Float};
ghost use Rattle.brep.specs.Rows.{tables};
ghost use Rattle.brep.specs.Tree.{tree};
ghost use Rattle.curve_nests.specs.Own.Numbers.{kind_below, refers_to, some_refers};
ghost use Rattle.curve_nests.specs.Nests.{nests};

use brep::{Kind, Run};
use curve_parameter::under_trims;

// The kind, under its trims, of what a row refers to; none for a reference that does not fall, which is to the empty polyline.
pub fn kind_below(curves: &[u32], row: u32, base: u32) -> Option<Kind>
    ensures { result ≡ kind_below curves.now row base }
{
    if base < row {
        brep::kind_at(curves, under_trims(curves, base))
    } else {
        None
    }
}

// Whether that is a composite.
#[tactic(auto, using(crate::proofs::Laws::is_kind_below))]
fn refers_to_composite(curves: &[u32], row: u32, base: u32) -> bool
    ensures { result ≡ refers_to 7 curves.now row base }
{
    kind_below(curves, row, base) == Some(Kind::Composite)
}

// Whether some segment of a row's run is one.
fn some_composite(curves: &[u32], parts: &[u32], row: u32, run: Run) -> bool
    ensures { result ≡ some_refers curves.now parts.now row run.first run.count }
{
    let first = run.first as usize;
    (first..first + run.count as usize).any(|i| refers_to_composite(
        curves,
        row,
        brep::int_at(parts, i * 2),
    ))
}

// Whether the curve of a row is a composite, under any trims, with a composite among its segments.
#[tactic(auto, using(crate::proofs::Laws::nests_by_number, brep::proofs::Numbered::is_kind))]
pub fn nests(curves: &[u32], parts: &[u32], row: u32) -> bool
    ensures { (points reals ranges : List Float) → result ≡ nests (tree (tables points curves.now reals parts.now ranges) row) }
{
    let r = under_trims(curves, row);
    brep::kind_at(curves, r) == Some(Kind::Composite)
        && some_composite(curves, parts, r, brep::run_at(curves, r))
}
