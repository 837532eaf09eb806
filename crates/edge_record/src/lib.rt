#![tactic(auto)]
// A chain's records in a lent buffer: a point and its parameter, four floats, x y z t. Stays: a record is reached by its index, as a slice's
// element is, and each contract has the one fact that it is there: a struct of buffer and index would be made anew at each access.
ghost use Rattle.std.specs.Prelude.{◌≡◌, ◌*◌};
ghost use Rattle.std.proofs.lemmas.List.Edits.{sets};
ghost use Rattle.edge_record.specs.Own.Stored.{HasRecord, record_point};
ghost use Rattle.edge_record.specs.Chain.{width, row, sample_at};

use math::Vec3;

// How many floats a record has.
pub const WIDTH: usize = 4;

// The fewest floats that a chain buffer must have: two records.
pub const SHORTEST: usize = 2 * WIDTH;

// The most records that a chain can have.
pub const MOST: usize = 16384;

// A point of a chain and the parameter beside it.
#[derive(Clone, Copy)]
pub struct Sample {
    pub point: Vec3,
    pub param: f64,
}

// The point of record i.
#[tactic(auto, unfolding(crate::specs::Chain::sample_at))]
pub fn record_point(chain: &[f64], i: usize) -> Vec3
    requires { HasRecord chain.now i }
    ensures { result ≡ record_point chain.now i }
{
    let at = WIDTH * i;
    Vec3 {
        x: chain[at],
        y: chain[at + 1],
        z: chain[at + 2],
    }
}

// The sample of record i.
#[tactic(auto, unfolding(crate::specs::Chain::sample_at))]
pub fn sample_at(chain: &[f64], i: usize) -> Sample
    requires { HasRecord chain.now i }
    ensures { result ≡ sample_at chain.now i }
{
    Sample {
        point: record_point(chain, i),
        param: chain[WIDTH * i + 3],
    }
}

// Stores s as record i.
pub fn put(chain: &mut [f64], i: usize, s: Sample)
    requires { HasRecord chain.old i }
    ensures { chain.new ≡ sets chain.old (width * i) (row s) }
{
    let at = WIDTH * i;
    chain[at] = s.point.x;
    chain[at + 1] = s.point.y;
    chain[at + 2] = s.point.z;
    chain[at + 3] = s.param;
}
