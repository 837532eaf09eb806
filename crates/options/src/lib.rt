#![tactic(auto)]
// Tessellation tolerances: options.rs.
ghost use Rattle.std.specs.Prelude.{◌≡◌, true};
ghost use Rattle.arith.specs.Pick.{min_of};
ghost use Rattle.options.specs.Options.{radians, degrees, is_clamped, default_options, draft_options, fine_options};
ghost use Rattle.options.specs.Options.{has_scale, absolute_deflection, resolved_model, resolved_relative, resolve};
ghost use Rattle.options.specs.Options.{is_relative_to, sag_for, for_extent, step_by_sag, angle_step, segments_for_arc};

use std::f64::consts::PI;

const LEAST_ANGLE: f64 = 1e-4;

const LARGEST_ANGLE: f64 = PI;

const LEAST_STEP: f64 = 1e-3;

// An angle in radians. The type keeps a number of degrees from being taken for one of radians: outside this module an angle is
// made by `radians` or `degrees` alone.
#[derive(Clone, Copy)]
pub struct Angle(f64);

impl Angle {
    // An angle of x radians.
    pub fn radians(x: f64) -> Angle
        ensures { result ≡ radians x }
    {
        Angle(x)
    }

    // An angle of x degrees: times π / 180.
    #[tactic(auto, using(crate::proofs::Laws::by_degree))]
    pub fn degrees(x: f64) -> Angle
        ensures { result ≡ degrees x }
    {
        Angle(x.to_radians())
    }

    // As a number of radians.
    pub fn to_radians(self) -> f64
        ensures { result ≡ self.0 }
    {
        self.0
    }

    // Whether resolving changes the angle, as it does with 8 that was meant as degrees: a caller can warn.
    #[tactic(auto, unfolding(crate::specs::Options::is_clamped))]
    pub fn is_clamped(self) -> bool
        ensures { result ≡ is_clamped self }
    {
        let x = self.0;
        x < LEAST_ANGLE || LARGEST_ANGLE < x
    }
}

// How finely to draw. `deflection` and `angle` are what a span is tested by, and no bounds on the chain: what a curve does
// between the places that are looked at is not seen, and a span with no depth left is not tested again.
#[derive(Clone, Copy)]
pub struct Options {
    // The sag: how far a span's chord may lie from the curve at the span's middle parameter. A length, unless relative is 1
    // and there is a scale: then it is this fraction of the scale for an edge whose extent is a quarter of the scale up to all
    // of it, of its own extent for a larger edge, and for a smaller one four times this fraction of its extent, but never less
    // than an eighth of what it is for the whole.
    pub deflection: f64,
    // Where a curve is bisected, how far the tangents at a span's two ends may turn from each other. On a circle or an ellipse
    // the largest step of its parameter, 1e-3 at least, and no tangent is looked at, unless these even steps miss the sag: then it is
    // bisected too.
    pub angle: Angle,
    // 0 or 1. Stays: no bool, since the C interface hands in a number, and the check of options has to see one that is neither.
    pub relative: u32,
    // The least number of segments before points are merged; a chord has one. 0 counts as 1. Where halving gives fewer, so many even
    // steps of the parameter are drawn instead, and these are not tested.
    pub segments: u64,
    // How often a span may be halved, held to 1..24.
    pub depth: u32,
    // The size of the model; not finite, or not above zero, it is none. Stays: no Option, since C hands in a number.
    pub scale: f64,
}

// What a lost range and a composite's breaks mean. It stands beside the options, and is none of them.
#[derive(Clone, Copy)]
pub enum Mode {
    // As in the Rust, bit for bit.
    Reference,
    // A parabola or a hyperbola whose range is lost is the chord of its vertices, and a composite breaks where its segments meet.
    Strict,
}

// The options resolved against the model's scale. Stays: model and relative are 0.0 where there is none, as in the Rust, and are only
// asked whether they are above zero.
#[derive(Clone, Copy)]
pub struct Resolved {
    pub sag: f64,
    pub model: f64,
    pub relative: f64,
    pub angle: f64,
    pub segments: u64,
    pub depth: u32,
}

impl Default for Options {
    ghost is_default = { λ o. o ≡ default_options };

    // The Rust's own options: 0.0004 of the scale, and 8 degrees.
    fn default() -> Options
        ensures { result ≡ default_options }
    {
        Options {
            deflection: 0.0004,
            angle: Angle::degrees(8.0),
            relative: 1,
            segments: 1,
            depth: 12,
            scale: 0.0,
        }
    }
}

impl Options {
    // For a quick preview. Stays: each preset has its two numbers in sight.
    pub fn draft() -> Options
        ensures { result ≡ draft_options }
    {
        Options {
            deflection: 0.01,
            angle: Angle::degrees(35.0),
            ..Options::default()
        }
    }

    // For close inspection.
    pub fn fine() -> Options
        ensures { result ≡ fine_options }
    {
        Options {
            deflection: 0.0001,
            angle: Angle::degrees(4.0),
            ..Options::default()
        }
    }

    // A scale that is finite and above zero.
    fn has_scale(self) -> bool
        ensures { result ≡ has_scale self }
    {
        arith::is_finite(self.scale) && 0.0 < self.scale
    }

    // Without a scale the deflection stands as it is.
    fn distance(self) -> f64
        ensures { result ≡ absolute_deflection self }
    {
        if self.relative != 0 && self.has_scale() {
            self.deflection * self.scale
        } else {
            self.deflection
        }
    }

    #[tactic(auto, unfolding(crate::specs::Options::resolved_model))]
    fn resolved_model(self) -> f64
        ensures { result ≡ resolved_model self }
    {
        if self.has_scale() { self.scale } else { 0.0 }
    }

    // Doubled, because `sag_for` halves it again for a feature of the model's size.
    #[tactic(auto, unfolding(crate::specs::Options::resolved_relative))]
    fn resolved_relative(self) -> f64
        ensures { result ≡ resolved_relative self }
    {
        if self.relative == 0 {
            0.0
        } else {
            self.deflection * 2.0
        }
    }

    // Options::resolve: against the scale, angle and depth clamped, at least one segment.
    #[tactic(auto, unfolding(crate::specs::Options::resolve, crate::specs::Options::resolved_sag))]
    pub fn resolve(self) -> Resolved
        ensures { result ≡ resolve self }
    {
        Resolved {
            sag: arith::max(self.distance(), f64::MIN_POSITIVE),
            model: self.resolved_model(),
            relative: self.resolved_relative(),
            angle: arith::clamp(self.angle.0, LEAST_ANGLE, LARGEST_ANGLE),
            segments: self.segments.max(1),
            depth: self.depth.clamp(1, 24),
        }
    }
}

impl Resolved {
    // Whether a feature of this extent is judged against its own size.
    fn is_relative_to(self, extent: f64) -> bool
        ensures { result ≡ is_relative_to self extent }
    {
        0.0 < self.relative && (0.0 < self.model && (0.0 < extent && arith::is_finite(extent)))
    }

    // Resolved::sag_for: the sag for an edge of this extent.
    #[tactic(auto, unfolding(crate::specs::Options::sag_for))]
    pub fn sag_for(self, extent: f64) -> f64
        ensures { result ≡ sag_for self extent }
    {
        if self.is_relative_to(extent) {
            let proportion = arith::clamp(self.model / (2.0 * extent), 0.5, 2.0);
            return arith::max(proportion * extent * self.relative, self.sag / 8.0);
        }
        self.sag
    }

    // Resolved::for_extent: the sag changes, and nothing else.
    #[tactic(auto, unfolding(crate::specs::Options::for_extent))]
    pub fn for_extent(self, extent: f64) -> Resolved
        ensures { result ≡ for_extent self extent }
    {
        Resolved {
            sag: self.sag_for(extent),
            ..self
        }
    }

    // The step that keeps an arc within the sag. A feature that is all within it has only the angle to respect.
    fn step_by_sag(self, radius: f64) -> f64
        ensures { result ≡ step_by_sag self radius }
    {
        if self.sag < radius {
            2.0 * arith_trig::acos(arith::clamp(1.0 - self.sag / radius, -1.0, 1.0))
        } else {
            self.angle
        }
    }

    // Whether that step is surely not below the angle, which spares its arc cosine. `false` says nothing.
    fn is_angle_bound(self, radius: f64) -> bool
        ensures { result ≡ true → min_of (step_by_sag self radius) self.angle ≡ self.angle }
    {
        if self.sag < radius {
            let cosine = arith::clamp(1.0 - self.sag / radius, -1.0, 1.0);
            return arith_turn_limit::is_double_turn_over(cosine, self.angle);
        }
        true
    }

    // Resolved::angle_step_for_radius: the largest step on a circle of this radius that sag and angle allow.
    #[tactic(auto, unfolding(crate::specs::Options::angle_step))]
    pub fn angle_step_for_radius(self, radius: f64) -> f64
        ensures { result ≡ angle_step self radius }
    {
        let size = arith::abs(radius);
        if self.is_angle_bound(size) {
            return arith::max(self.angle, LEAST_STEP);
        }
        let by_sag = self.step_by_sag(size);
        arith::max(arith::min(by_sag, self.angle), LEAST_STEP)
    }

    // Resolved::segments_for_arc: how many such steps an arc of `total` radians takes.
    #[tactic(auto, unfolding(crate::specs::Options::segments_for_arc))]
    pub fn segments_for_arc(self, radius: f64, total: f64) -> u64
        ensures { result ≡ segments_for_arc self radius total }
    {
        let step = self.angle_step_for_radius(radius);
        let n = arith::to_u64(arith::ceil(arith::abs(total) / step));
        n.max(self.segments).max(1)
    }
}
