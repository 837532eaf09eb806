#![tactic(auto)]
// The parameters of an edge: definitions in specs/, laws in proofs/; and lists of parameters, written into a buffer whose length is
// the room for them.
ghost use Rattle.std.specs.Prelude.{◌≡◌, ◌≤◌, [], ◌∷◌, length};
ghost use Rattle.arith.specs.Notation.{count};
ghost use Rattle.edge_params.specs.Params.{evenly};
ghost use Rattle.edge_params.specs.Own.Written.{ListWritten, ListAppended};

use math::Interval;

// x behind the first k floats. Stays: the length goes beside the buffer, which is lent since memory is fixed; its caller,
// `edge_subdivide::Recorder`, keeps both.
pub fn push(out: &mut [f64], k: usize, x: f64) -> Option<usize>
    requires { k ≤ length out.old }
    ensures { ListAppended out.old k (x ∷ []) result out.new }
{
    if k >= out.len() {
        return None;
    }
    out[k] = x;
    Some(k + 1)
}

// `i as f64`. One of 32 bits takes fewer instructions than by the library's alone, which is for any.
fn float_of(i: u64) -> f64
    ensures { result ≡ count i }
{
    if i > u32::MAX as u64 {
        return std::num::nearest_u64_to_f64(i);
    }
    i as u32 as f64
}

// range.at(i / n) for each i from 0 to n.
pub fn evenly(range: Interval, n: u64, out: &mut [f64]) -> Option<usize>
    ensures { ListWritten out.old (evenly range n) result out.new }
{
    let total = std::num::nearest_u64_to_f64(n);
    for i in 0..=n {
        let at = i as usize;
        if at >= out.len() {
            return None;
        }
        out[at] = range.at(float_of(i) / total);
    }
    Some(n as usize + 1)
}
