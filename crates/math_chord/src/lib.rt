#![tactic(auto)]
// The distance of a point to a chord, and the place on the chord that it is measured from.
ghost use Rattle.std.specs.Prelude.{◌≡◌, Some};
ghost use Rattle.arith_root.specs.Root.{root_of};
ghost use Rattle.math_chord.specs.Chord.{chord_place};
ghost use Rattle.math_chord.specs.Measured.{measured_for_thinning, measured_for_bisection};
ghost use Rattle.math_chord.specs.Own.Made.{thinning_chord, bisection_chord, chord_foot};

use math::{Interval, Vec3};

// A chord that is not longer than this has no length for bisection.
const SHORTEST_CHORD: f64 = 1e-300;

// A chord, for the distances of many points to it: where it starts, from there to its end, and what a place on it is divided by; none is for
// a chord that has no length.
#[derive(Clone, Copy)]
pub struct Chord {
    pub from: Vec3,
    pub axis: Vec3,
    pub divisor: Option<f64>,
}

// What a chord's leaf answers of a point: how far it is from the chord, squared, and the place on the chord that this is measured from, 0.0 at
// the chord's start and 1.0 at its end. Squared, since two of the three that ask for it compare squares.
#[derive(Clone, Copy)]
pub struct Foot {
    pub squared: f64,
    pub place: f64,
}

// The same with the distance itself.
#[derive(Clone, Copy)]
pub struct Measured {
    pub distance: f64,
    pub place: f64,
}

impl Foot {
    // How far the point is from the chord.
    pub fn distance(self) -> f64
        ensures { result ≡ root_of self.squared }
    {
        arith_root::root(self.squared)
    }

    // The distance, with the place.
    fn measured(self) -> Measured
        ensures { result ≡ record { distance = root_of self.squared; place = self.place } }
    {
        Measured {
            distance: self.distance(),
            place: self.place,
        }
    }
}

// The place of the perpendicular's foot from p, on a chord that has a length.
fn place_on(from: Vec3, axis: Vec3, divisor: f64, p: Vec3) -> f64
    ensures { result ≡ chord_place from axis (Some divisor) p }
{
    arith::clamp(
        p.sub(from).dot(axis) / divisor,
        Interval::UNIT.lo,
        Interval::UNIT.hi,
    )
}

impl Chord {
    // For thinning, a chord has a length where its square is above zero. Stays: beside `for_bisection`, which tests another number, and divides by
    // the square of a root, whose bits differ.
    pub fn for_thinning(pa: Vec3, pb: Vec3) -> Chord
        ensures { result ≡ thinning_chord pa pb }
    {
        let axis = pb.sub(pa);
        let len2 = axis.length_squared();
        Chord {
            from: pa,
            axis,
            divisor: (0.0 < len2).then_some(len2),
        }
    }

    // For bisection, where it is longer than `SHORTEST_CHORD`.
    pub fn for_bisection(pa: Vec3, pb: Vec3) -> Chord
        ensures { result ≡ bisection_chord pa pb }
    {
        let axis = pb.sub(pa);
        let len = axis.length();
        Chord {
            from: pa,
            axis,
            divisor: (SHORTEST_CHORD < len).then_some(len * len),
        }
    }

    // The leaf: p's foot on the chord.
    pub fn foot(&self, p: Vec3) -> Foot
        ensures { result ≡ chord_foot self.now p }
    {
        match self.divisor {
            Some(divisor) => {
                let place = place_on(self.from, self.axis, divisor, p);
                let nearest = self.from.add(self.axis.scale(place));
                Foot {
                    squared: p.sub(nearest).length_squared(),
                    place,
                }
            }
            None => Foot {
                squared: p.sub(self.from).length_squared(),
                place: 0.0,
            },
        }
    }
}

// How far point p is from the chord from a to b, and the place that this is measured from, for a drawing that marks both: as drawing measures
// where breaks and points are thinned.
pub fn measure_for_thinning(a: Vec3, b: Vec3, p: Vec3) -> Measured
    ensures { result ≡ measured_for_thinning a b p }
{
    Chord::for_thinning(a, b).foot(p).measured()
}

// And as it measures the span from a to b where it bisects.
pub fn measure_for_bisection(a: Vec3, b: Vec3, p: Vec3) -> Measured
    ensures { result ≡ measured_for_bisection a b p }
{
    Chord::for_bisection(a, b).foot(p).measured()
}
