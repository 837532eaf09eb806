#![tactic(auto)]
// The check of a closed form: how far a curve's middles lie from those of its chords. The points at its parameters are left in
// the chain, where they are wanted if the form is good enough.
ghost use Rattle.std.specs.Prelude.{◌≡◌, true, ◌*◌, ◌≤◌, length};
ghost use Rattle.std.proofs.lemmas.List.Edits.{sets};
ghost use Rattle.std.specs.Float.Ieee.{le};
ghost use Rattle.arith.specs.Notation.{plus_zero};
ghost use Rattle.arith_root.specs.Root.{root_of};
ghost use Rattle.brep.specs.Rows.{lent};
ghost use Rattle.brep.specs.Tree.{CurveTree, tree};
ghost use Rattle.curve_prepared.specs.Own.Prepared.{prepared_of, is_plain, plain_point};
ghost use Rattle.edge_record.specs.Chain.{width, flat};
ghost use Rattle.edge_closed_form.specs.Miss.{worst_miss};
ghost use Rattle.edge_closed_form.specs.Located.{located};
ghost use Rattle.edge_closed_form.specs.Own.Worst.{miss_square, larger_of, Alike};

use arith_root_limit::Limit;
use brep::LentTables;
use curve_prepared::Prepared;
use edge_record::Sample;
use math::Vec3;

// How far the middle of a curve lies from the middle of its chord between two of its points, squared.
#[tactic(auto, using(curve_prepared::proofs::Laws::plain_point_lem), unfolding(crate::specs::Own::Worst::miss_square))]
fn miss_square(prepared: Prepared, from: Sample, to: Sample) -> f64
    requires { (is_plain prepared ≡ true) × (from.point ≡ plain_point prepared from.param) × (to.point ≡ plain_point prepared to.param) }
    ensures { (c : CurveTree) → prepared_of c ≡ prepared → result ≡ miss_square c from.param to.param }
{
    let t = 0.5 * (from.param + to.param);
    let m = curve_prepared::plain_point(prepared, t);
    m.sub(from.point.add(to.point).scale(0.5)).length_squared()
}

// The larger of the worst square so far and the next; a NaN is passed over. Stays: one instruction, as rustc -O has it, since the worst is never a
// NaN itself, which the library's max (7) and `arith::max` (10) would ask at each point.
#[tactic(auto, unfolding(crate::specs::Own::Worst::larger_of))]
fn larger(worst: f64, s: f64) -> f64
    ensures { result ≡ larger_of worst s }
{
    if worst < s { s } else { worst }
}

// The curve's point at t, with t.
fn sample_of(prepared: Prepared, t: f64) -> Sample
    ensures point { result.point ≡ plain_point prepared result.param }
    ensures param { result.param ≡ t }
{
    Sample {
        point: curve_prepared::plain_point(prepared, t),
        param: t,
    }
}

// The square of the largest miss between parameters that follow each other, of a curve that needs no tables. Each point is
// evaluated once, and is a record of the chain from then on. Stays: two lists, and that the curve needs no tables, as in `meets`; that the
// chain has room is the clause of all that write there.
fn worst_square(prepared: Prepared, params: &[f64], chain: &mut [f64]) -> f64
    requires { (is_plain prepared ≡ true) × (width * length params.now ≤ length chain.old) }
    ensures { (c : CurveTree) → prepared_of c ≡ prepared → Alike (root_of result) (worst_miss c plus_zero params.now)
        × (chain.new ≡ sets chain.old 0 (flat (located c params.now))) }
{
    let Some((first, rest)) = params.split_first() else {
        return 0.0;
    };
    let mut worst = 0.0;
    let mut last = sample_of(prepared, *first);
    edge_record::put(chain, 0, last);
    for (i, t) in rest.iter().enumerate() {
        let next = sample_of(prepared, *t);
        edge_record::put(chain, i + 1, next);
        worst = larger(worst, miss_square(prepared, last, next));
        last = next;
    }
    worst
}

// Whether the chords between the parameters stay within the sag, of a curve that needs no tables. The chain then holds the points at
// those. Stays: a pair of parameters and chain (of `&out[..m]` in edge_sample) lives for one call and its one helper; and a struct round `Prepared`
// that keeps that it needs no tables would be made of this clause here, for the same helper.
pub fn meets(tables: &LentTables<'_>, row: u32, params: &[f64], sag: f64, chain: &mut [f64]) -> bool
    requires { (width * length params.now ≤ length chain.old) × (is_plain (prepared_of (tree (lent tables.now) row)) ≡ true) }
    ensures { (result ≡ le (worst_miss (tree (lent tables.now) row) plus_zero params.now) sag)
        × (chain.new ≡ sets chain.old 0 (flat (located (tree (lent tables.now) row) params.now))) }
{
    let prepared = curve_prepared::prepare(tables, row);
    // The largest of the roots is the root of the largest.
    let worst = worst_square(prepared, params, chain);
    Limit::new(sag).is_root_within(worst)
}
