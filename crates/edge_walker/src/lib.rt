#![tactic(auto)]
// Chain::oriented of edge.rs as a walker: it keeps the caller's chain and a place in it, and steps forwards or backwards.
// The place lies between two points and counts the points before it. Only whole records are points.
ghost use Rattle.std.specs.Prelude.{◌≡◌};
ghost use Rattle.edge_walker.specs.Walk.{whole_of, start_of, started, stepped, next, moved, Walks};

use edge_record::Sample;

// A walk over the caller's chain: its place lies between two points and counts those before it.
#[derive(Clone, Copy)]
pub struct Walker<'a> {
    pub chain: &'a [f64],
    pub at: usize,
    pub forward: bool,
}

// A step and the place after it.
#[derive(Clone, Copy)]
pub struct Stepped {
    pub step: Option<Sample>,
    pub at: usize,
}

// How many whole points a chain has.
fn whole_of(chain: &[f64]) -> usize
    ensures { result ≡ whole_of chain.now }
{
    chain.chunks_exact(edge_record::WIDTH).len()
}

// Where a walk begins: before the first point, or behind the last whole one.
#[tactic(auto, unfolding(crate::specs::Walk::start_of))]
pub fn start_at(chain: &[f64], forward: bool) -> usize
    ensures { result ≡ start_of chain.now forward }
{
    if forward { 0 } else { whole_of(chain) }
}

// The step from a place. One with no point left keeps its place. Stays: the place beside the chain, since under C names the caller keeps it.
#[tactic(auto, unfolding(crate::specs::Walk::stepped))]
pub fn step_at(chain: &[f64], at: usize, forward: bool) -> Stepped
    ensures { result ≡ stepped chain.now at forward }
{
    let whole = whole_of(chain);
    if forward {
        if at < whole {
            return Stepped {
                step: Some(edge_record::sample_at(chain, at)),
                at: at + 1,
            };
        }
    } else if let Some(before) = at.min(whole).checked_sub(1) {
        return Stepped {
            step: Some(edge_record::sample_at(chain, before)),
            at: before,
        };
    }
    Stepped { step: None, at }
}

impl<'a> Walker<'a> {
    // A walker of the whole chain, from its start if forward, else from its end. Its steps answer the points of Chain::oriented.
    #[tactic(auto, using(crate::proofs::Laws::walks))]
    pub fn oriented(chain: &'a [f64], forward: bool) -> Walker<'a>
        ensures { (result ≡ started chain.entry forward) × Walks chain.now forward result }
    {
        let at = start_at(chain, forward);
        Walker { chain, at, forward }
    }

    // The next point, and the walker moves past it.
    pub fn step(&mut self) -> Option<Sample>
        ensures { (result ≡ (next self.old).step) × (self.new ≡ moved self.old) }
    {
        let Stepped { step, at } = step_at(self.chain, self.at, self.forward);
        self.at = at;
        step
    }
}
