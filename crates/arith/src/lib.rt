#![tactic(auto)]
// Functions of f64, each with its answer fixed bit for bit for every float.
ghost use Rattle.std.specs.Prelude.{◌≡◌, false};
ghost use Rattle.std.specs.Float.Ieee.Scale.{finite};
ghost use Rattle.std.specs.Float.Ieee.{to_unsigned};
ghost use Rattle.std.specs.Float.{nan, inf};
ghost use Rattle.arith.specs.Pick.{abs_of, min_of, max_of, clamp_of};
ghost use Rattle.arith.specs.Floor.{floor_of, ceil_of};
ghost use Rattle.arith.specs.Periods.{periods, left_over};

// f64::NAN, with what a proof needs of it: a clause sees the constant as its bits.
pub fn nan() -> f64
    ensures { result ≡ nan }
{
    f64::NAN
}

// f64::INFINITY, likewise.
pub fn infinity() -> f64
    ensures { result ≡ inf false }
{
    f64::INFINITY
}

// f64::is_finite: neither a NaN nor an infinity; here with what a proof needs of it, as for `nan`.
#[tactic(auto, using(crate::proofs::Cmp::finite_same))]
pub fn is_finite(x: f64) -> bool
    ensures { result ≡ finite x }
{
    x.is_finite()
}

// f64::abs: the sign taken off, of -0.0 and of an infinity too. A NaN stays. Likewise.
#[tactic(auto, using(crate::proofs::Cmp::abs_same))]
pub fn abs(x: f64) -> f64
    ensures { result ≡ abs_of x }
{
    x.abs()
}

// f64::min: a where the two are equal, as zeros of either sign are; the other where one is NaN.
// Stays: the library's promises either one of two equal zeros, and the results are fixed bit for bit.
#[tactic(auto, using(crate::proofs::Cmp::min_same))]
pub fn min(a: f64, b: f64) -> f64
    ensures { result ≡ min_of a b }
{
    if (a <= b) | b.is_nan() { a } else { b }
}

// f64::max, with the same choice at equal operands and at a NaN. Stays: as for `min`.
#[tactic(auto, using(crate::proofs::Cmp::max_same))]
pub fn max(a: f64, b: f64) -> f64
    ensures { result ≡ max_of a b }
{
    if (b <= a) | b.is_nan() { a } else { b }
}

// f64::clamp, without its panic: only what is strictly below lower or above upper changes, so a
// NaN passes, and so does -0.0 between 0.0 and 1.0. An end that is NaN is no bound. Stays: the library's asks for lower ≤ upper.
pub fn clamp(x: f64, lower: f64, upper: f64) -> f64
    ensures { result ≡ clamp_of x lower upper }
{
    if x < lower {
        lower
    } else if upper < x {
        upper
    } else {
        x
    }
}

// f64::floor: the greatest whole number at most x. A NaN, an infinity and a whole number, -0.0
// too, stay. Stays: 23 instructions, and the library's takes 42.
pub fn floor(x: f64) -> f64
    ensures { result ≡ floor_of x }
{
    // From 2^52 to 2^53 the floats are the whole numbers: there the sum is whole, less than 1 off.
    let s = x + 6755399441055744.0;
    if 4503599627370496.0 <= s {
        if s < 9007199254740992.0 {
            // all three answers, and then one of them: a branch here would often be guessed wrong
            let n = s - 6755399441055744.0;
            let below = s - 6755399441055745.0;
            let most = if n < x { n } else { x };
            return if x < n { below } else { most };
        }
    }
    floor_far(x)
}

// The floor, more slowly, by |x| without its fraction. From 2^52 on every float is whole. Stays: with the library's floor in its place a
// loop over `floor` takes 25 instructions, not 23.
fn floor_far(x: f64) -> f64
    ensures { result ≡ floor_of x }
{
    let size = abs(x);
    if size < 4503599627370496.0 {
        let n = std::num::truncating_f64_to_u64(size);
        let f = n as f64;
        if f == size {
            x
        } else if x < 0.0 {
            -((n + 1) as f64)
        } else {
            f
        }
    } else {
        x
    }
}

// f64::ceil: the least whole number at least x. What is above -1 and below 0 gives -0.0; a NaN,
// an infinity and a whole number stay. Stays: 25 instructions, and the library's takes 43.
pub fn ceil(x: f64) -> f64
    ensures { result ≡ ceil_of x }
{
    -floor(-x)
}

// How many periods are in t, to the nearest; `per` is one over the period.
pub fn periods(t: f64, per: f64) -> f64
    ensures { result ≡ periods t per }
{
    floor(t * per + 0.5)
}

// What is left of t after k periods; the period is in two parts.
pub fn left_over(t: f64, k: f64, high: f64, low: f64) -> f64
    ensures { result ≡ left_over t k high low }
{
    t - k * high - k * low
}

// `x as u64`: cut toward zero; 0 for a NaN and below 0, 2^64 - 1 from 2^64 on. Stays: 20 instructions, and the library's
// saturating_f64_to_u64 takes 22.
pub fn to_u64(x: f64) -> u64
    ensures { result ≡ to_unsigned 64 x }
{
    if -1.0 < x {
        if x < 18446744073709551616.0 {
            return std::num::truncating_f64_to_u64(x);
        }
        return 18446744073709551615;
    }
    0
}

// `x as usize`, of 64 bits: the same.
pub fn to_usize(x: f64) -> usize
    ensures { result ≡ to_unsigned 64 x }
{
    to_u64(x) as usize
}
