#![tactic(auto)]
// Bisection of a curve's spans: subdivide of edge.rs, on rows. Each point and each tangent is evaluated once and handed down.
ghost use Rattle.std.specs.Prelude.{◌≡◌};
ghost use Rattle.arith_trig.specs.Trig.{acos_of};
ghost use Rattle.curve_prepared.specs.Own.PreparedCurve.{curve_of};
ghost use Rattle.edge_params.specs.Own.Bisected.{subdivided};
ghost use Rattle.edge_subdivide.specs.Own.Recorder.{Records};
ghost use Rattle.edge_subdivide.specs.Own.Split.{split_of};
ghost use Rattle.edge_subdivide.specs.Bisect.{end_at, tangent_turn, is_within, within_budget};

use arith_root_limit::Limit;
use arith_turn_limit::TurnLimit;
use curve_prepared::PreparedCurve;
use math::Vec3;
use math_chord::Chord;
use options::Resolved;
pub use recorder::Recorder;

mod recorder;

// An end of a span: its parameter, and the curve's point and tangent there.
#[derive(Clone, Copy)]
pub struct End {
    pub t: f64,
    pub point: Vec3,
    pub tangent: Option<Vec3>,
}

// What a span is held to: the options, and their sag and their angle with the cuts that spare roots and arc cosines.
#[derive(Clone, Copy)]
pub struct Limits {
    pub options: Resolved,
    pub sag: Limit,
    pub turn: TurnLimit,
    ghost own_sag: { sag ≡ options.sag },
    ghost own_turn: { turn ≡ options.angle },
}

impl Limits {
    ghost use Rattle.std.specs.Prelude.{◌≡◌};

    // The limits of the options, worked out once for many spans.
    pub fn new(options: Resolved) -> Limits
        ensures { result.options ≡ options }
    {
        Limits {
            options,
            sag: Limit::new(options.sag),
            turn: TurnLimit::new(options.angle),
        }
    }
}

// The cosine of the angle between two tangents; where one is missing, of the angle 0.
fn turn_cosine(a: Option<Vec3>, b: Option<Vec3>) -> f64
    ensures { acos_of result ≡ tangent_turn a b }
{
    match (a, b) {
        (Some(ta), Some(tb)) => arith::clamp(ta.dot(tb), -1.0, 1.0),
        _ => 1.0,
    }
}

// Whether the span from a to b, whose middle has the point pm, is within budget. The sag is compared by its square.
fn is_within(limits: &Limits, a: End, b: End, pm: Vec3) -> bool
    ensures { result ≡ is_within limits.now.options a b pm }
{
    let cosine = turn_cosine(a.tangent, b.tangent);
    // A sharp turn needs no sag.
    if limits.turn.is_over(cosine) {
        return false;
    }
    let foot = Chord::for_bisection(a.point, b.point).foot(pm);
    if limits.sag.is_root_within(foot.squared) {
        return limits.turn.is_within(cosine);
    }
    false
}

// A curve whose spans are bisected, and what they are held to. Stays: that an end is the curve's stands in the clauses, here, in edge_sample and in
// edge_count, and not in `End`, which would carry the curve from span to span.
#[derive(Drop)]
pub struct Bisection<'a> {
    pub curve: PreparedCurve<'a>,
    pub limits: Limits,
}

impl<'a> Bisection<'a> {
    ghost use Rattle.std.specs.Prelude.{◌≡◌};
    ghost use Rattle.curve_prepared.specs.Own.PreparedCurve.{curve_of};
    ghost use Rattle.edge_params.specs.Own.Bisected.{subdivided};
    ghost use Rattle.edge_subdivide.specs.Own.Recorder.{Records};
    ghost use Rattle.edge_subdivide.specs.Own.Split.{split_of};
    ghost use Rattle.edge_subdivide.specs.Bisect.{end_at, within_budget};

    // A curve, held to the limits of the options.
    pub fn new(curve: PreparedCurve<'a>, options: Resolved) -> Bisection<'a>
        ensures curve { result.curve ≡ curve.entry }
        ensures options { result.limits.options ≡ options }
    {
        Bisection {
            curve,
            limits: Limits::new(options),
        }
    }

    // The curve at t.
    pub fn end_at(&self, t: f64) -> End
        ensures { result ≡ end_at (curve_of self.now.curve) t }
    {
        End {
            t,
            point: self.curve.point(t),
            tangent: self.curve.tangent(t),
        }
    }

    // The middle at which the span from a to b is split; none where it is within budget. The middle's tangent is evaluated only where it is
    // split.
    fn split_of(&self, a: End, b: End) -> Option<End>
        ensures { result ≡ split_of (curve_of self.now.curve) self.now.limits.options a b }
    {
        let t = 0.5 * (a.t + b.t);
        let point = self.curve.point(t);
        if is_within(&self.limits, a, b, point) {
            return None;
        }
        let tangent = self.curve.tangent(t);
        Some(End { t, point, tangent })
    }

    // What bisection puts between a and b, behind what is recorded; none where there is no room for it.
    pub fn subdivide(&self, a: End, b: End, depth: u32, to: &mut Recorder<'_>) -> Option<()>
        requires { (a ≡ end_at (curve_of self.now.curve) a.t) × (b ≡ end_at (curve_of self.now.curve) b.t) }
        ensures { Records (curve_of self.now.curve)
            (subdivided (within_budget (curve_of self.now.curve) self.now.limits.options) depth a.t b.t)
            result to.old to.new }
    {
        if depth == 0 {
            return Some(());
        }
        let Some(m) = self.split_of(a, b) else {
            return Some(());
        };
        self.subdivide(a, m, depth - 1, to)?;
        to.push(m)?;
        self.subdivide(m, b, depth - 1, to)
    }
}
