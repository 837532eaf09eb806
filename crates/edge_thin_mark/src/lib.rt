#![tactic(auto)]
// The spans of `thin`. The Rust keeps the spans to come on a stack; here the flags that are set say where each span ends, and the spans
// are taken in the chain's order.
ghost use Rattle.std.specs.Prelude.{◌≡◌, false, ◌*◌, ◌<◌, ◌≤◌, length, replicate};
ghost use Rattle.refusal.specs.Answer.{each};
ghost use Rattle.edge_record.specs.Own.Stored.{record_point};
ghost use Rattle.edge_record.specs.Chain.{width};
ghost use Rattle.edge_thin_mark.specs.Own.Flags.{FirstKept};
ghost use Rattle.edge_thin_mark.specs.Spans.{flagged};

use edge_thin_span::{Bounds, Span};
use refusal::Refusal;

// The first index from `from` on whose flag is set, or the number of flags.
fn next_kept(keep: &[bool], from: usize) -> usize
    requires { from ≤ length keep.now }
    ensures { FirstKept keep.now from result }
{
    match keep[from..].iter().position(|kept| *kept) {
        Some(i) => from + i,
        None => keep.len(),
    }
}

// Sets the flags of the points that are kept; there is a flag for each point. After a refusal the flags are of no use. Stays: that there is a record
// for each flag is a clause, here and twice in edge_thin, since each step writes either the flags or the records and only reads the others: a struct
// of both would lend both to be written.
pub fn mark(chain: &[f64], bounds: Bounds, keep: &mut [bool]) -> Result<(), Refusal>
    requires { (1 < length keep.old) × (width * length keep.old ≤ length chain.now) × (keep.old ≡ replicate (length keep.old) false) }
    ensures { each (λ _. keep.new) result ≡ flagged (record_point chain.now) bounds.tolerance bounds.angle (length keep.old) }
{
    let last = keep.len() - 1;
    keep[0] = true;
    keep[last] = true;
    let mut a = 0;
    while a < last {
        let b = next_kept(keep, a + 1);
        let span = Span { chain, a, b };
        match span.decide(bounds)? {
            Some(w) => {
                keep[w] = true;
            }
            None => {
                a = b;
            }
        }
    }
    Ok(())
}
