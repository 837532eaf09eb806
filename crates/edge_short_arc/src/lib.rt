#![tactic(auto)]
// One walk over the short arc, for the three questions that repair_runaway of edge.rs has of it: does it leave the reference box, and does it
// reach either vertex. The Rust walks it for each.
ghost use Rattle.std.specs.Prelude.{◌≡◌, true, ◌||◌};
ghost use Rattle.std.specs.Float.Ieee.{lt, le};
ghost use Rattle.math.specs.Math.{distance};
ghost use Rattle.edge_record.specs.Own.Records.{records_of};
ghost use Rattle.edge_short_arc.specs.Seen.{test_of, unseen, taken, seen_after, served};

use arith_root_limit::Limit;
use brep::Edge;
use edge_record::WIDTH;
use math::{Aabb, Vec3};
use options::Resolved;

// What is known of an arc after some of its points: whether one lay outside the box, and whether one reached either vertex. Of fixed size, and
// handed on by value.
#[derive(Clone, Copy)]
pub struct Seen {
    pub escapes: bool,
    pub reaches_start: bool,
    pub reaches_end: bool,
}

// What an arc's points are tested by: how far from the reference box's centre one may lie, and how near one reaches a vertex. Worked out once
// for a walk.
#[derive(Clone, Copy)]
pub struct ArcTest {
    centre: Vec3,
    limit: Limit,
    start: Vec3,
    end: Vec3,
    near: Limit,
}

impl ArcTest {
    // The test of an edge's short arc, by the box and the vertices that the caller gives.
    pub fn new(reference: Aabb, edge: Edge, r: Resolved, start: Vec3, end: Vec3) -> ArcTest
        ensures { result ≡ test_of reference edge r start end }
    {
        ArcTest {
            centre: reference.centre(),
            limit: Limit::new(reference.diagonal() + r.sag * 16.0),
            start,
            end,
            near: Limit::new(arith::max(r.sag, edge.tolerance * 10.0)),
        }
    }

    // Whether a point before lay outside, which is known, or this one does.
    #[tactic(auto, unfolding(math::specs::Math::v_length))]
    fn escapes(&self, known: bool, p: Vec3) -> bool
        ensures { result ≡ known || lt self.now.limit (distance p self.now.centre) }
    {
        known
            || self
                .limit
                .is_root_above(p.sub(self.centre).length_squared())
    }

    // Whether a point before reached the vertex, which is known, or this one does. A vertex that was reached is not measured again.
    #[tactic(auto, unfolding(math::specs::Math::v_length))]
    fn reaches(&self, known: bool, vertex: Vec3, p: Vec3) -> bool
        ensures { result ≡ known || le (distance p vertex) self.now.near }
    {
        known || self.near.is_root_within(p.sub(vertex).length_squared())
    }

    // Whether a point surely changes nothing of what is known: the start was reached, and the cuts tell that the point lies inside and does
    // not reach the end. Most points are such, and all three are worked out, which is faster than a branch between them. `false` says nothing.
    fn is_quiet(&self, seen: Seen, p: Vec3) -> bool
        ensures { result ≡ true → taken self.now seen p ≡ seen }
    {
        let out = p.sub(self.centre).length_squared();
        let to_end = p.sub(self.end).length_squared();
        seen.reaches_start & self.limit.is_below_low_cut(out) & self.near.is_above_high_cut(to_end)
    }

    // What is known with one point more.
    pub fn take(&self, seen: Seen, p: Vec3) -> Seen
        ensures { result ≡ taken self.now seen p }
    {
        if self.is_quiet(seen, p) {
            return seen;
        }
        Seen {
            escapes: self.escapes(seen.escapes, p),
            reaches_start: self.reaches(seen.reaches_start, self.start, p),
            reaches_end: self.reaches(seen.reaches_end, self.end, p),
        }
    }

    // Whether the arc stays inside and reaches both vertices. Each point is taken once, in order, up to the first that lies outside: the arc
    // then does not serve, whatever follows.
    pub fn serves(&self, arc: &[f64]) -> bool
        ensures { result ≡ served (seen_after self.now unseen (records_of arc.now)) }
    {
        let mut seen = Seen {
            escapes: false,
            reaches_start: false,
            reaches_end: false,
        };
        for record in arc.chunks_exact(WIDTH) {
            seen = self.take(seen, edge_record::record_point(record, 0));
            if seen.escapes {
                return false;
            }
        }
        seen.reaches_start && seen.reaches_end
    }
}
