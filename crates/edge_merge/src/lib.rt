#![tactic(auto)]
// The merge block of `discretise`: points of a chain that lie too near the one before them go.
ghost use Rattle.std.specs.Prelude.{◌≡◌, true, cond, ◌&&◌, ◌-◌, ◌/◌, ◌≤◌, length, ltb};
ghost use Rattle.std.specs.Float.Ieee.{lt, le};
ghost use Rattle.math.specs.Math.{distance};
ghost use Rattle.edge_record.specs.Own.Stored.{ChainStored};
ghost use Rattle.edge_record.specs.Own.Records.{records_of};
ghost use Rattle.edge_record.specs.Chain.{width, samples};
ghost use Rattle.edge_merge.specs.Merge.{merge_floor, merged};

use arith_root_limit::Limit;
use math::Vec3;

// How far apart two points of a chain may be and still count as one: in the edge's tolerance, and in the sag.
const MERGE_TOLERANCES: f64 = 4.0;

const MERGE_SAG: f64 = 0.5;

// The tighter of the two bounds.
#[tactic(auto, unfolding(crate::specs::Merge::merge_floor))]
pub fn merge_floor(tolerance: f64, sag: f64) -> f64
    ensures { result ≡ merge_floor tolerance sag }
{
    arith::min(
        arith::max(tolerance, 0.0) * MERGE_TOLERANCES,
        sag * MERGE_SAG,
    )
}

// Whether two points are further apart than the floor. Its cuts spare most roots.
#[tactic(auto, unfolding(math::specs::Math::v_length))]
fn is_apart(p: Vec3, q: Vec3, floor: Limit) -> bool
    ensures { result ≡ lt floor (distance p q) }
{
    floor.is_root_above(p.sub(q).length_squared())
}

// How many of the k records kept stay before the end. Where the end is too close to the last of them, that one goes, unless it is the only
// one, and not the end, which is the edge's vertex.
fn before_end(k: usize, last: Vec3, end: Vec3, floor: f64) -> usize
    ensures { (result ≡ cond (ltb 1 k && le (distance end last) floor) (k - 1) k) × (result ≤ k) }
{
    if k <= 1 {
        return k;
    }
    if math::distance(end, last) <= floor {
        return k - 1;
    }
    k
}

// Merges a chain, the whole records of the slice, in place. What is kept is moved to the slice's start; answers how many there are. Stays:
// these are counted beside the slice, which keeps no length of its own as a Vec does with `retain`; memory is fixed.
pub fn merge(chain: &mut [f64], floor: f64) -> usize
    ensures { ChainStored chain.old chain.new result (merged floor (records_of chain.old)) }
{
    let n = chain.len() / edge_record::WIDTH;
    if n <= 2 {
        return n;
    }
    if floor > 0.0 {
        let limit = Limit::new(floor);
        let mut last = edge_record::record_point(chain, 0);
        let mut k = 1usize;
        for i in 1..n - 1 {
            let p = edge_record::sample_at(chain, i);
            if is_apart(p.point, last, limit) {
                edge_record::put(chain, k, p);
                last = p.point;
                k += 1;
            }
        }
        let end = edge_record::sample_at(chain, n - 1);
        let m = before_end(k, last, end.point, floor);
        edge_record::put(chain, m, end);
        return m + 1;
    }
    n
}
