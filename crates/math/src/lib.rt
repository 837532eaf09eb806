#![tactic(auto)]
// Vectors, frames, boxes and intervals: the part of math.rs that the road from an edge to its chain uses.
ghost use Rattle.std.specs.Prelude.{◌≡◌};
ghost use Rattle.math.specs.Math.{v_add, v_sub, v_scale, v_dot, v_cross, v_length_squared, v_length, distance};
ghost use Rattle.math.specs.Math.{try_normalized, v_lerp, v_min, v_max, v_finite, y_dir};
ghost use Rattle.math.specs.Math.{is_empty, add_point, box_size, centre, diagonal, span_of, at};

// A point or a vector of space.
#[derive(Clone, Copy, Debug)]
pub struct Vec3 {
    pub x: f64,
    pub y: f64,
    pub z: f64,
}

// An origin with a Z axis and an X axis, as they are: nothing is normalised.
#[derive(Clone, Copy, Debug)]
pub struct Frame {
    pub origin: Vec3,
    pub axis: Vec3,
    pub ref_dir: Vec3,
}

// An axis-aligned bounding box.
#[derive(Clone, Copy, Debug)]
pub struct Aabb {
    pub min: Vec3,
    pub max: Vec3,
}

// An interval of a curve's parameter, from lo to hi.
#[derive(Clone, Copy, Debug)]
pub struct Interval {
    pub lo: f64,
    pub hi: f64,
}

// 2^-511, the root of the least normal number: what is not longer has no direction.
const SHORTEST_VECTOR: f64 = 1.4916681462400413e-154;

impl Vec3 {
    // The origin.
    pub const ZERO: Vec3 = Vec3 {
        x: 0.0,
        y: 0.0,
        z: 0.0,
    };

    // The scalar product.
    #[tactic(auto, unfolding(crate::specs::Math::v_dot))]
    pub fn dot(self, o: Vec3) -> f64
        ensures { result ≡ v_dot self o }
    {
        self.x * o.x + self.y * o.y + self.z * o.z
    }

    // The vector product.
    #[tactic(auto, unfolding(crate::specs::Math::v_cross))]
    fn cross(self, o: Vec3) -> Vec3
        ensures { result ≡ v_cross self o }
    {
        Vec3 {
            x: self.y * o.z - self.z * o.y,
            y: self.z * o.x - self.x * o.z,
            z: self.x * o.y - self.y * o.x,
        }
    }

    // The length: the root of its square.
    #[tactic(auto, unfolding(crate::specs::Math::v_length))]
    pub fn length(self) -> f64
        ensures { result ≡ v_length self }
    {
        arith_root::root(self.dot(self))
    }

    // The square of the length.
    pub fn length_squared(self) -> f64
        ensures { result ≡ v_length_squared self }
    {
        self.dot(self)
    }

    // The unit vector of this direction; none where the length is not finite, or so short that its square would not be normal.
    #[tactic(auto, unfolding(crate::specs::Math::try_normalized))]
    pub fn try_normalized(self) -> Option<Vec3>
        ensures { result ≡ try_normalized self }
    {
        let n = self.length();
        if arith::is_finite(n) && SHORTEST_VECTOR < n {
            Some(self.scale(1.0 / n))
        } else {
            None
        }
    }

    // The point at t on the way from this to o.
    #[tactic(auto, unfolding(crate::specs::Math::v_lerp))]
    pub fn lerp(self, o: Vec3, t: f64) -> Vec3
        ensures { result ≡ v_lerp self o t }
    {
        self.add(o.sub(self).scale(t))
    }

    // The lesser of each coordinate. Stays: `max` is the same of the other choice; each clause names its own function, and one of both would
    // ask for the clause of a closure at each use.
    #[tactic(auto, unfolding(crate::specs::Math::v_min))]
    fn min(self, o: Vec3) -> Vec3
        ensures { result ≡ v_min self o }
    {
        Vec3 {
            x: arith::min(self.x, o.x),
            y: arith::min(self.y, o.y),
            z: arith::min(self.z, o.z),
        }
    }

    // The greater of each coordinate.
    #[tactic(auto, unfolding(crate::specs::Math::v_max))]
    fn max(self, o: Vec3) -> Vec3
        ensures { result ≡ v_max self o }
    {
        Vec3 {
            x: arith::max(self.x, o.x),
            y: arith::max(self.y, o.y),
            z: arith::max(self.z, o.z),
        }
    }

    // Whether each coordinate is finite.
    #[tactic(auto, unfolding(crate::specs::Math::v_finite))]
    pub fn is_finite(self) -> bool
        ensures { result ≡ v_finite self }
    {
        arith::is_finite(self.x) && (arith::is_finite(self.y) && arith::is_finite(self.z))
    }

    // The sum, by coordinates.
    #[tactic(auto, unfolding(crate::specs::Math::v_add))]
    pub fn add(self, o: Vec3) -> Vec3
        ensures { result ≡ v_add self o }
    {
        Vec3 {
            x: self.x + o.x,
            y: self.y + o.y,
            z: self.z + o.z,
        }
    }

    // The difference, by coordinates.
    #[tactic(auto, unfolding(crate::specs::Math::v_sub))]
    pub fn sub(self, o: Vec3) -> Vec3
        ensures { result ≡ v_sub self o }
    {
        Vec3 {
            x: self.x - o.x,
            y: self.y - o.y,
            z: self.z - o.z,
        }
    }

    // The Rust's `mul`.
    #[tactic(auto, unfolding(crate::specs::Math::v_scale))]
    pub fn scale(self, s: f64) -> Vec3
        ensures { result ≡ v_scale self s }
    {
        Vec3 {
            x: self.x * s,
            y: self.y * s,
            z: self.z * s,
        }
    }
}

// The computed distance of two points.
pub fn distance(a: Vec3, b: Vec3) -> f64
    ensures { result ≡ distance a b }
{
    a.sub(b).length()
}

impl Frame {
    // Local +Y, which completes the right-handed frame.
    #[tactic(auto, unfolding(crate::specs::Math::y_dir))]
    pub fn y_dir(self) -> Vec3
        ensures { result ≡ y_dir self }
    {
        self.axis.cross(self.ref_dir)
    }
}

impl Aabb {
    // The empty box, which takes in any point.
    pub const EMPTY: Aabb = Aabb {
        min: Vec3 {
            x: f64::INFINITY,
            y: f64::INFINITY,
            z: f64::INFINITY,
        },
        max: Vec3 {
            x: f64::NEG_INFINITY,
            y: f64::NEG_INFINITY,
            z: f64::NEG_INFINITY,
        },
    };

    // Whether the box holds nothing: its least corner is above its greatest on some axis.
    #[tactic(auto, unfolding(crate::specs::Math::is_empty))]
    pub fn is_empty(self) -> bool
        ensures { result ≡ is_empty self }
    {
        self.min.x > self.max.x || (self.min.y > self.max.y || self.min.z > self.max.z)
    }

    // The box with p in it.
    #[tactic(auto, unfolding(crate::specs::Math::add_point))]
    pub fn add_point(self, p: Vec3) -> Aabb
        ensures { result ≡ add_point self p }
    {
        Aabb {
            min: self.min.min(p),
            max: self.max.max(p),
        }
    }

    // The lengths of its sides; of the empty box, none.
    #[tactic(auto, unfolding(crate::specs::Math::box_size))]
    pub fn size(self) -> Vec3
        ensures { result ≡ box_size self }
    {
        if self.is_empty() {
            Vec3::ZERO
        } else {
            self.max.sub(self.min)
        }
    }

    // Its middle.
    #[tactic(auto, unfolding(crate::specs::Math::centre))]
    pub fn centre(self) -> Vec3
        ensures { result ≡ centre self }
    {
        if self.is_empty() {
            Vec3::ZERO
        } else {
            self.min.add(self.max).scale(0.5)
        }
    }

    // The length from its least corner to its greatest.
    #[tactic(auto, unfolding(crate::specs::Math::diagonal))]
    pub fn diagonal(self) -> f64
        ensures { result ≡ diagonal self }
    {
        self.size().length()
    }
}

impl Interval {
    // From 0 to 1.
    pub const UNIT: Interval = Interval { lo: 0.0, hi: 1.0 };

    // From its lower end to its upper; below zero where they are exchanged.
    #[tactic(auto, unfolding(crate::specs::Math::span_of))]
    pub fn span(self) -> f64
        ensures { result ≡ span_of self }
    {
        self.hi - self.lo
    }

    // The number at t on the way from its lower end to its upper.
    #[tactic(auto, unfolding(crate::specs::Math::at))]
    pub fn at(self, t: f64) -> f64
        ensures { result ≡ at self t }
    {
        self.lo + (self.hi - self.lo) * t
    }
}
