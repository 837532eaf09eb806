#![tactic(auto)]
// `thin`: drops the points of a sampled polyline that it does not need, to a bounded deviation.
ghost use Rattle.std.specs.Prelude.{◌≡◌, true, false, ◌*◌, ◌/◌, ◌<◌, ◌≤◌, length, replicate};
ghost use Rattle.std.specs.Float.Ieee.{lt};
ghost use Rattle.arith.specs.Notation.{plus_zero};
ghost use Rattle.edge_record.specs.Own.Stored.{counted_of, after, ChainStored};
ghost use Rattle.edge_record.specs.Own.Records.{records_of};
ghost use Rattle.edge_record.specs.Chain.{width, most, samples};
ghost use Rattle.edge_thin_mark.specs.Spans.{marks};
ghost use Rattle.edge_thin.specs.Thin.{flag_count, evens, with_floor, retained_by, thinned};

use edge_thin_span::Bounds;
use refusal::Refusal;

// Few flags, for a short chain: they are cleared at each call.
const FEW: usize = 128;

// How many flags are set.
#[tactic(auto, unfolding(crate::specs::Thin::flag_count))]
fn count_kept(keep: &[bool]) -> usize
    ensures { result ≡ flag_count keep.now }
{
    keep.iter().filter(|kept| **kept).count()
}

// Sets `want` flags at even steps. Stays: that there are no more flags than a chain has records is a clause; a struct round the slice would be made
// once, in `thin_by`, for `restore` and this, and taken apart again for `mark` and `retain`, which ask for no such bound.
fn mark_evenly(keep: &mut [bool], want: usize)
    requires { (0 < length keep.old) × (want ≤ length keep.old) × (length keep.old ≤ most) }
    ensures { keep.new ≡ marks keep.old (evens (length keep.old) want want) }
{
    let last = keep.len() - 1;
    let steps = want.saturating_sub(1).max(1);
    for i in 0..want {
        keep[i * last / steps] = true;
    }
}

// The segment floor is the tessellator's own: where fewer flags are set than it asks for (than there are, where it asks for more), points
// are put back evenly.
#[tactic(auto, unfolding(crate::specs::Thin::restored))]
fn restore(keep: &mut [bool], floor: usize)
    requires { (0 < length keep.old) × (length keep.old ≤ most) }
    ensures { keep.new ≡ with_floor floor keep.old }
{
    let want = floor.min(keep.len());
    if count_kept(keep) < want {
        mark_evenly(keep, want);
    }
}

// The records whose flags are set, moved to the buffer's start; there is a flag for each record. Answers how many there are. Stays: these are counted
// beside the slice, which keeps no length of its own as a Vec does with `retain`; memory is fixed. Flags beside records, as for
// `edge_thin_mark::mark`.
fn retain(chain: &mut [f64], keep: &[bool]) -> usize
    requires { width * length keep.now ≤ length chain.old }
    ensures { ChainStored chain.old chain.new result (retained_by keep.now (samples (length keep.now) chain.old)) }
{
    let mut k = 0;
    for (i, kept) in keep.iter().enumerate() {
        if *kept {
            let s = edge_record::sample_at(chain, i);
            edge_record::put(chain, k, s);
            k += 1;
        }
    }
    k
}

// Thins the first records, as many as there are flags, none of which is set. What is kept is moved to the buffer's start; a refusal
// leaves the buffer as it was. Stays: flags beside records, as for `edge_thin_mark::mark`.
fn thin_by(
    chain: &mut [f64],
    bounds: Bounds,
    floor: usize,
    keep: &mut [bool],
) -> Result<usize, Refusal>
    requires { (2 < length keep.old) × (length keep.old ≤ most) × (width * length keep.old ≤ length chain.old) × (keep.old ≡ replicate (length keep.old) false) × (lt plus_zero bounds.tolerance ≡ true) }
    ensures { (result ≡ counted_of (thinned bounds.tolerance bounds.angle floor (samples (length keep.old) chain.old)))
        × (chain.new ≡ after chain.old (thinned bounds.tolerance bounds.angle floor (samples (length keep.old) chain.old))) }
{
    edge_thin_mark::mark(chain, bounds, keep)?;
    restore(keep, floor);
    Ok(retain(chain, keep))
}

// Thins a chain, the whole records of the slice, in place.
pub fn thin(chain: &mut [f64], tolerance: f64, angle: f64, floor: usize) -> Result<usize, Refusal>
    requires { length chain.old / width ≤ most }
    ensures { (result ≡ counted_of (thinned tolerance angle floor (records_of chain.old)))
        × (chain.new ≡ after chain.old (thinned tolerance angle floor (records_of chain.old))) }
{
    let n = chain.len() / edge_record::WIDTH;
    if n < 3 || !(tolerance > 0.0) {
        return Ok(n);
    }
    let bounds = Bounds { tolerance, angle };
    if n <= FEW {
        let mut flags = [false; FEW];
        return thin_by(chain, bounds, floor, &mut flags[..n]);
    }
    let mut flags = [false; edge_record::MOST];
    thin_by(chain, bounds, floor, &mut flags[..n])
}
