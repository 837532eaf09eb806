#![tactic(auto)]
// sin, cos and acos in fixed steps.
ghost use Rattle.std.specs.Prelude.{◌≡◌, ◌<◌};
ghost use Rattle.std.specs.List.{fold};
ghost use Rattle.arith.specs.Notation.{◌⊖◌, ◌⊗◌, ◌⊘◌, one};
ghost use Rattle.arith_trig.specs.Own.SinCos.{sin_cos_of};
ghost use Rattle.arith_trig.specs.Trig.{quarter, step, sin_by, cos_by, sin_of, cos_of, halved, arc_of, angle_of, acos_by, acos_of};

use std::f64::consts::PI;

// 2 / π, and π / 2 in two parts.
const TWO_OVER_PI: f64 = 0.6366197723675814;

const HALF_PI_HIGH: f64 = 1.5707963267341256;

const HALF_PI_LOW: f64 = 6.077100506506192e-11;

// What the terms of the series are divided by. Of an r at most an eighth turn from 0, the sine is r times the first series of r * r, and
// the cosine is the second.
const SIN_DIVISORS: [f64; 8] = [272.0, 210.0, 156.0, 110.0, 72.0, 42.0, 20.0, 6.0];

const COS_DIVISORS: [f64; 8] = [240.0, 182.0, 132.0, 90.0, 56.0, 30.0, 12.0, 2.0];

const ARC_DIVISORS: [f64; 7] = [13.0, 11.0, 9.0, 7.0, 5.0, 3.0, 1.0];

// The sine and the cosine of one angle.
#[derive(Clone, Copy)]
pub struct SinCos {
    pub sin: f64,
    pub cos: f64,
}

// k mod 4 of a whole k, from 0 to 3.
fn quarter(k: f64) -> u64
    ensures { result ≡ quarter k }
{
    // From 2^52 to 2^53 a float's last bits are those of its number; and 4 divides 1.5 * 2^52.
    let s = k + 6755399441055744.0;
    if 4503599627370496.0 <= s {
        if s < 9007199254740992.0 {
            if s - 6755399441055744.0 == k {
                return f64::to_bits(s) % 4;
            }
        }
    }
    quarter_far(k)
}

// k mod 4 for every k, more slowly. From 2^64 on every float is a multiple of 4.
fn quarter_far(k: f64) -> u64
    ensures { result ≡ quarter k }
{
    let size = arith::abs(k);
    if size < 18446744073709551616.0 {
        let n = std::num::truncating_f64_to_u64(size) % 4;
        if k < 0.0 { (4 - n) % 4 } else { n }
    } else {
        0
    }
}

// A series: for each divisor d in turn, w becomes 1 - z / d * w, from 1.
fn series(z: f64, divisors: &[f64]) -> f64
    ensures { result ≡ fold (λ w d. step z d w) one divisors.now }
{
    divisors.iter().fold(1.0, |w, d| 1.0 - z / *d * w)
}

// Both of t, from r and from q, which is k mod 4. The sine is S, C, -S, -C by q, and the cosine is
// what the sine is at q + 1; S is r times its series, and C is 1 times its own. Picked by index there
// is no branch to guess wrong, and the compiler makes one vector of the two series in the array: a
// division for both.
fn both(r: f64, q: u64) -> SinCos
    requires { q < 4 }
    ensures { (result.sin ≡ sin_by q r) × (result.cos ≡ cos_by q r) }
{
    let z = r * r;
    let series = [series(z, &SIN_DIVISORS), series(z, &COS_DIVISORS)];
    let factor = [r, 1.0, -r, -1.0];
    let i = q as usize;
    let j = (i + 1) % 4;
    SinCos {
        sin: factor[i] * series[i % 2],
        cos: factor[j] * series[j % 2],
    }
}

// Both, with the work that they share done once.
pub fn sin_cos(t: f64) -> SinCos
    ensures { result ≡ sin_cos_of t }
{
    let k = arith::periods(t, TWO_OVER_PI);
    both(
        arith::left_over(t, k, HALF_PI_HIGH, HALF_PI_LOW),
        quarter(k),
    )
}

// The sine of t, by the fixed steps.
#[tactic(auto, unfolding(crate::specs::Own::SinCos::sin_cos_of))]
pub fn sin(t: f64) -> f64
    ensures { result ≡ sin_of t }
{
    sin_cos(t).sin
}

// The cosine of t, by the fixed steps.
#[tactic(auto, unfolding(crate::specs::Own::SinCos::sin_cos_of))]
pub fn cos(t: f64) -> f64
    ensures { result ≡ cos_of t }
{
    sin_cos(t).cos
}

// y becomes y / (1 + root(1 + y * y)): the tangent of half the angle.
#[tactic(auto, unfolding(crate::specs::Trig::halved))]
fn halved(y: f64) -> f64
    ensures { result ≡ halved y }
{
    y / (1.0 + arith_root::root(1.0 + y * y))
}

// A series: for each divisor d in turn, v becomes 1 / d - z * v, from the first.
fn summed(z: f64, first: f64, divisors: &[f64]) -> f64
    ensures { result ≡ fold (λ v d. one ⊘ d ⊖ z ⊗ v) first divisors.now }
{
    divisors.iter().fold(first, |v, d| 1.0 / *d - z * v)
}

// Sixteen times the angle whose tangent is y.
fn arc(y: f64) -> f64
    ensures { result ≡ arc_of y }
{
    16.0 * (y * summed(y * y, 1.0 / 15.0, &ARC_DIVISORS))
}

// Twice the angle whose tangent is y, by an eighth of the angle.
#[tactic(auto, unfolding(crate::specs::Trig::angle_of))]
fn angle(y: f64) -> f64
    ensures { result ≡ angle_of y }
{
    arc(halved(halved(halved(y))))
}

// The angle whose half has the tangent y, by 1 / y where y is above 1.
#[tactic(auto, unfolding(crate::specs::Trig::acos_by))]
fn acos_by(y: f64) -> f64
    ensures { result ≡ acos_by y }
{
    if 1.0 < y {
        PI - angle(1.0 / y)
    } else {
        angle(y)
    }
}

// The angle from 0 to π whose cosine is a; NaN where there is none.
#[tactic(auto, unfolding(crate::specs::Trig::acos_of))]
pub fn acos(a: f64) -> f64
    ensures { result ≡ acos_of a }
{
    if a == 1.0 {
        0.0
    } else if a == -1.0 {
        PI
    } else {
        acos_by(arith_root::root((1.0 - a) / (1.0 + a)))
    }
}
