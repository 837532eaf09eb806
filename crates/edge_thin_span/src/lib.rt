#![tactic(auto)]
// What `thin` decides of a span of a chain: the points from index a to index b.
ghost use Rattle.std.specs.Prelude.{◌≡◌, ◌||◌, ◌+◌, ◌-◌, ◌<◌, unwrap_or};
ghost use Rattle.std.specs.Float.Ieee.{lt};
ghost use Rattle.arith.specs.Notation.{plus_zero};
ghost use Rattle.math.specs.Math.{v_sub, try_normalized, angle_between};
ghost use Rattle.edge_record.specs.Own.Stored.{HasRecord, record_point};
ghost use Rattle.edge_thin_span.specs.Span.{worst_of, directions, first_in, last_in, span_turn, decision};

use math::Vec3;
use math_chord::Chord;
use refusal::Refusal;

// A span of a chain, from record a to record b.
#[derive(Clone, Copy)]
pub struct Span<'a> {
    pub chain: &'a [f64],
    pub a: usize,
    pub b: usize,
    ghost forwards: { a < b },
    ghost inside: { HasRecord chain.now b },
}

// What a span is held to: how far its points may lie from its chord, and how far it may turn.
#[derive(Clone, Copy)]
pub struct Bounds {
    pub tolerance: f64,
    pub angle: f64,
}

// The largest distance of a span's points to its chord, and the index of its point. Stays: where none is above zero the index is the span's start,
// as in the Rust, whose worst begins as (0.0, a).
#[derive(Clone, Copy)]
struct Worst {
    pub distance: f64,
    pub index: usize,
}

// The angle between two unit vectors.
#[tactic(auto, unfolding(math::specs::Math::angle_between))]
fn angle_between(u: Vec3, v: Vec3) -> f64
    ensures { result ≡ angle_between u v }
{
    arith_trig::acos(arith::clamp(u.dot(v), -1.0, 1.0))
}

impl Span<'_> {
    // The first point of those furthest from the chord; a itself where no distance is above zero. Distances are compared by their
    // squares, and only the largest one's root is taken, save where two squares are too close to tell. Stays: by number, since a number is the
    // answer.
    fn worst(&self) -> Worst
        ensures { result ≡ worst_of (record_point self.now.chain.now) self.now.a self.now.b }
    {
        let pa = edge_record::record_point(self.chain, self.a);
        let pb = edge_record::record_point(self.chain, self.b);
        let chord = Chord::for_thinning(pa, pb);
        let mut far2 = 0.0;
        let mut at = self.a;
        for i in self.a + 1..self.b {
            let p = edge_record::record_point(self.chain, i);
            let d2 = chord.foot(p).squared;
            if arith_root_limit::is_below(far2, d2) {
                far2 = d2;
                at = i;
            }
        }
        Worst {
            distance: arith_root::root(far2),
            index: at,
        }
    }

    // The direction of the segment from point i to the next.
    fn direction(&self, i: usize) -> Option<Vec3>
        requires { i < self.now.b }
        ensures { result ≡ try_normalized (v_sub (record_point self.now.chain.now (i + 1)) (record_point self.now.chain.now i)) }
    {
        let next = edge_record::record_point(self.chain, i + 1);
        next.sub(edge_record::record_point(self.chain, i))
            .try_normalized()
    }

    // The first direction of the segments: forwards from the start to the first segment that has one. Stays: here and below `find_map` over
    // the numbers was tried: its clause is of a run, and what numbers a range's run has is said by no law that a crate can name.
    fn first_direction(&self) -> Option<Vec3>
        ensures { result ≡ first_in (directions (record_point self.now.chain.now) (self.now.b - self.now.a) self.now.a) }
    {
        for i in self.a..self.b {
            if let Some(direction) = self.direction(i) {
                return Some(direction);
            }
        }
        None
    }

    // The last: backwards from the end.
    fn last_direction(&self) -> Option<Vec3>
        ensures { result ≡ last_in (directions (record_point self.now.chain.now) (self.now.b - self.now.a) self.now.a) }
    {
        for i in (self.a..self.b).rev() {
            if let Some(direction) = self.direction(i) {
                return Some(direction);
            }
        }
        None
    }

    // How far the chain turns: from the first segment round to the last, taken through the chord. None where one of the three directions
    // is missing.
    #[tactic(auto, unfolding(crate::specs::Span::span_turn))]
    fn turn(&self) -> Option<f64>
        ensures { unwrap_or result plus_zero ≡ span_turn (record_point self.now.chain.now) self.now.a self.now.b }
    {
        let end = edge_record::record_point(self.chain, self.b);
        let chord = end
            .sub(edge_record::record_point(self.chain, self.a))
            .try_normalized()?;
        let first = self.first_direction()?;
        let last = self.last_direction()?;
        Some(angle_between(first, chord) + angle_between(chord, last))
    }

    // Whether the span is split, where its points lie so far off at most. The turn is worked out only where the distance alone does not
    // tell.
    fn is_split(&self, distance: f64, bounds: Bounds) -> bool
        ensures { result ≡ lt bounds.tolerance distance || lt bounds.angle (span_turn (record_point self.now.chain.now) self.now.a self.now.b) }
    {
        distance > bounds.tolerance || self.turn().unwrap_or(0.0) > bounds.angle
    }

    // What becomes of the span: none of its points inside is kept, or it is split at its worst point. It is refused where it would be
    // split and has no point to split it at: the Rust takes it again and again.
    #[tactic(auto, unfolding(crate::specs::Span::decision))]
    pub fn decide(&self, bounds: Bounds) -> Result<Option<usize>, Refusal>
        ensures { result ≡ decision (record_point self.now.chain.now) bounds.tolerance bounds.angle self.now.a self.now.b }
    {
        if self.b <= self.a + 1 {
            return Ok(None);
        }
        let worst = self.worst();
        if !self.is_split(worst.distance, bounds) {
            return Ok(None);
        }
        if worst.index == self.a {
            return Err(Refusal::Endless);
        }
        Ok(Some(worst.index))
    }
}
