#![tactic(auto)]
// The chain of an edge: discretise of edge.rs, on rows.
ghost use Rattle.std.specs.Prelude.{◌≡◌, [], ◌*◌, ◌/◌, ◌≤◌, length, Some};
ghost use Rattle.base_lists.specs.Room.{filled};
ghost use Rattle.brep.specs.Rows.{lent};
ghost use Rattle.brep.specs.Tree.{tree};
ghost use Rattle.curve.specs.Eval.{is_sampled};
ghost use Rattle.curve_asks.specs.Asks.{asks_far};
ghost use Rattle.edge_params.specs.Work.{asking, within};
ghost use Rattle.edge_drawing.specs.Own.Drawing.{drawn_curve, sampled_curve};
ghost use Rattle.edge_sample.specs.Own.Answered.{sampled_in};
ghost use Rattle.edge_record.specs.Own.Stored.{counted_of, after};
ghost use Rattle.edge_record.specs.Own.Records.{records_of};
ghost use Rattle.edge_record.specs.Chain.{width, shortest, most, samples};
ghost use Rattle.draw_spec.specs.Edge.{thinned_if, thinned_merged, listed, over_range, discretised};
ghost use Rattle.draw_spec.specs.Draw.{room_of};
ghost use Rattle.edge_asks.specs.Own.Told.{asked_first};
ghost use Rattle.edge_discretise.specs.Own.Discretised.{ChainLeads, asked_discretised, DiscretisedInto};

use edge_drawing::{Plan, Sampling};
use edge_sample::sample_params;
use math::Interval;
use refusal::Refusal;

// How many records there is room for, in buffers of so many floats.
fn room(first: usize, second: usize) -> usize
    ensures { result ≡ room_of first second }
{
    edge_record::MOST.min((first / edge_record::WIDTH).min(second / edge_record::WIDTH))
}

// Thins a chain, the whole records of the slice, in place, where the sampled curve is a polyline or a trim of one. Stays: that a chain has no
// more than so many records is a clause; a struct round the slice would be made in `draw_sampled` and taken apart at `finish`, which goes on
// with a part of it.
fn thin_sampled(sampling: &Sampling<'_>, chain: &mut [f64]) -> Result<usize, Refusal>
    requires { length chain.old / width ≤ most }
    ensures { (result ≡ counted_of (thinned_if (is_sampled (sampled_curve sampling.now)) sampling.now.options (records_of chain.old)))
        × (chain.new ≡ after chain.old (thinned_if (is_sampled (sampled_curve sampling.now)) sampling.now.options (records_of chain.old))) }
{
    let r = sampling.options;
    if curve::is_sampled(sampling.drawing.tables, sampling.drawing.edge.curve) {
        // A chain has no more than MOST records, so that a higher floor says nothing more.
        let floor = (r.segments as usize).min(edge_record::MOST) + 1;
        return edge_thin::thin(chain, r.sag * 0.01, r.angle, floor);
    }
    Ok(chain.len() / edge_record::WIDTH)
}

// Thins and merges a chain, the whole records of the slice. What is kept is moved to the slice's start.
fn finish(sampling: &Sampling<'_>, chain: &mut [f64]) -> Result<usize, Refusal>
    requires { (2 ≤ length chain.old / width) × (length chain.old / width ≤ most) }
    ensures { ChainLeads (thinned_merged (lent sampling.now.drawing.now.tables.now) sampling.now.drawing.now.edge sampling.now.options (records_of chain.old)) result chain.new }
{
    let edge = sampling.drawing.edge;
    let r = sampling.options;
    let m = thin_sampled(sampling, chain)?;
    let floor = edge_merge::merge_floor(edge.tolerance, r.sag);
    let kept = &mut chain[..edge_record::WIDTH * m];
    Ok(edge_merge::merge(kept, floor))
}

// Samples a usable range, of which it is known that nothing asked for is too far, into scratch, whose length is the room; finishes the chain
// at the buffer's start, and leaves scratch cleared.
fn draw_sampled(
    sampling: &Sampling<'_>,
    chain: &mut [f64],
    scratch: &mut [f64],
) -> Result<usize, Refusal>
    requires { (length scratch.old ≤ most) × (width * length scratch.old ≤ length chain.old)
        × (within (length scratch.old) (listed sampling.now.drawing.now.mode (sampled_curve sampling.now) sampling.now.range sampling.now.options) ≡ sampled_in (length scratch.old) sampling.now.drawing.now.mode (sampled_curve sampling.now) sampling.now.range sampling.now.options) }
    ensures { ChainLeads (within (length scratch.old) (over_range sampling.now.drawing.now.mode (lent sampling.now.drawing.now.tables.now) sampling.now.drawing.now.edge sampling.now.options sampling.now.range)) result chain.new
        × (scratch.new ≡ filled (length scratch.old) []) }
{
    let drawing = sampling.drawing;
    let wide = edge_record::WIDTH * scratch.len();
    let records = &mut chain[..wide];
    let Some(sampled) = sample_params(sampling, scratch, records) else {
        return Err(Refusal::NoRoom);
    };
    let n = sampled.count;
    let params = &scratch[..n];
    edge_place::place(drawing.tables, drawing.edge, params, sampled.known, chain);
    let used = &mut scratch[..n];
    base_lists::clear_from(used, 0);
    let placed = &mut chain[..edge_record::WIDTH * n];
    finish(sampling, placed)
}

// The chain over a usable range, which is probed before that or not. Whether something asked for is too far, and comes before the room is full,
// is told first.
fn draw_range(
    plan: &Plan<'_>,
    range: Interval,
    probes_first: bool,
    chain: &mut [f64],
    scratch: &mut [f64],
) -> Result<usize, Refusal>
    requires { (length scratch.old ≤ most) × (width * length scratch.old ≤ length chain.old) }
    ensures { ChainLeads (within (length scratch.old) (asking (asks_far (drawn_curve plan.now.drawing.now)) (asked_first probes_first (Some range)) (over_range plan.now.drawing.now.mode (lent plan.now.drawing.now.tables.now) plan.now.drawing.now.edge plan.now.options range))) result chain.new
        × (scratch.new ≡ filled (length scratch.old) []) }
{
    let sampling = Sampling {
        drawing: plan.drawing,
        range,
        options: plan.options,
    };
    let room = scratch.len();
    let told = edge_asks::tell(&sampling, probes_first, room);
    match told {
        Err(cause) => {
            base_lists::clear_from(scratch, 0);
            Err(cause)
        }
        Ok(()) => draw_sampled(&sampling, chain, scratch),
    }
}

// The edge's chain over its usable range, which is known, from the start of chain, and +0.0 behind it, or everywhere where
// it is refused; +0.0 in all of scratch. Before an edge is first drawn its range is probed for its extent: what the probes may not ask for
// is looked at here, together with the rest. Stays: chain and scratch are the two buffers either way round, so that they are no
// `edge_repair::Buffers`; a struct of one slice with room for the shortest chain would have to say besides that it still is the same slice.
// Stays: in a function of their own, before the extent, the probes cost every other edge a second look, and a line 17 instructions.
pub fn discretise_usable(
    plan: &Plan<'_>,
    probes_first: bool,
    chain: &mut [f64],
    scratch: &mut [f64],
) -> Result<usize, Refusal>
    requires { (shortest ≤ length chain.old) × (shortest ≤ length scratch.old) }
    ensures { DiscretisedInto (asked_discretised probes_first plan.now.drawing.now.mode (lent plan.now.drawing.now.tables.now) plan.now.drawing.now.edge plan.now.options) chain.old scratch.old result chain.new scratch.new }
{
    let drawing = plan.drawing;
    let Some(range) = drawing.usable else {
        edge_place::chord(
            drawing.tables.points,
            drawing.edge,
            drawing.edge.range.lo,
            drawing.edge.range.hi,
            chain,
        );
        base_lists::clear_from(scratch, 0);
        return Ok(2);
    };
    let n = room(chain.len(), scratch.len());
    let part = &mut scratch[..n];
    let drawn = draw_range(plan, range, probes_first, chain, part);
    // A refusal keeps no record.
    let kept = drawn.unwrap_or(0);
    base_lists::clear_from(chain, edge_record::WIDTH * kept);
    base_lists::clear_from(scratch, n);
    drawn
}

// The edge's chain from the start of chain, and +0.0 behind it, or everywhere where it is refused; +0.0 in all of scratch.
pub fn discretise(plan: &Plan<'_>, chain: &mut [f64], scratch: &mut [f64]) -> Result<usize, Refusal>
    requires { (shortest ≤ length chain.old) × (shortest ≤ length scratch.old) }
    ensures { DiscretisedInto (discretised plan.now.drawing.now.mode (lent plan.now.drawing.now.tables.now) plan.now.drawing.now.edge plan.now.options) chain.old scratch.old result chain.new scratch.new }
{
    discretise_usable(plan, false, chain, scratch)
}
