#![tactic(auto)]
// The square root of an f64, rounded to nearest even: an estimate by floats, checked in whole
// numbers, and a root digit by digit where the check fails.
// Stays: no f64::sqrt, since the scope has the root worked out by the program (docs/SCOPE.md, Forms).
ghost use Rattle.std.specs.Prelude.{◌≡◌, ◌+◌, ◌-◌, ◌*◌, ◌/◌, ◌%◌, ◌^◌, ◌<◌, ◌≤◌, T, from_bits};
ghost use Rattle.std.specs.Float.{binary64};
ghost use Rattle.arith_root.specs.Root.{root_of, near_root};
ghost use Rattle.arith_root.specs.Ieee.{SquareRoot};

const TWO_26: u64 = 1 << 26;

const TWO_30: u64 = 1 << 30;

const TWO_32: u64 = 1 << 32;

const TWO_52: u64 = 1 << 52;

const TWO_53: u64 = 1 << 53;

// A root so far, and what is left: root * root + rest is the number.
#[derive(Clone, Copy)]
struct Digits {
    root: u64,
    rest: u64,
}

impl Digits {
    // One more binary digit of the root, for two more of the number.
    fn with(self, next: u64) -> Digits
        requires { (self.rest ≤ 2 * self.root) × (self.root < 2 ^ 53) × (next < 4) }
        ensures { (result.root * result.root + result.rest ≡ 4 * (self.root * self.root + self.rest) + next) × (result.rest ≤ 2 * result.root) }
    {
        let more = self.rest * 4 + next;
        let test = self.root * 4 + 1;
        if test <= more {
            Digits {
                root: self.root * 2 + 1,
                rest: more - test,
            }
        } else {
            Digits {
                root: self.root * 2,
                rest: more,
            }
        }
    }
}

// The whole number nearest to the root of n * 2^52, by its 53 binary digits: 507 instructions, where u128::isqrt takes 1,692.
fn by_digits(n: u64) -> u64
    requires { (0 < n) × (n < 2 ^ 54) }
    ensures { result ≡ near_root (n * 2 ^ 52) }
{
    let mut digits = Digits { root: 0, rest: 0 };
    // the digits of n that are still to come, from the top of the word
    let mut left = n << 10;
    for _ in 0..53u64 {
        digits = digits.with(left >> 62);
        left <<= 2;
    }
    let Digits { root, rest } = digits;
    if root < rest { root + 1 } else { root }
}

// Whether q is the whole number nearest to the root of n * 2^52. `false` says nothing.
fn is_nearest(n: u64, q: u64) -> bool
    requires { n < 2 ^ 54 }
    ensures { T result → q ≡ near_root (n * 2 ^ 52) }
{
    let r = std::num::wrapping_sub_u64(q, 1);
    if TWO_53 <= r {
        return false;
    }
    // with r = a * 2^26 + c, n * 2^52 - r * r is worked out in parts, all small where q is near
    let a = r >> 26;
    let c = r % TWO_26;
    let d = std::num::wrapping_sub_u64(n, a * a);
    if TWO_30 <= d {
        return false;
    }
    let e = std::num::wrapping_sub_u64(d * TWO_26, 2 * a * c);
    if TWO_32 <= e {
        return false;
    }
    let rest = std::num::wrapping_sub_u64(e * TWO_26, c * c);
    // n * 2^52 is above (r + 1/2)^2 and below (r + 3/2)^2
    r < rest && rest <= 3 * r + 2
}

// A float near the root of t, for a t from 1/2 to 2: all but one time in 2,000 the nearest.
fn estimate(t: f64) -> f64 {
    // d is within 0.11% of the root. 1.5 * 2^27, put on and taken off, leaves it 26 digits, so that
    // t - d * d is exact
    let d = (201326592.3069113 + 0.9351923 * t + 0.0508 * (t * t) * (t - 5.7479)) - 201326592.0;
    // with w = (t - d * d) / 4t the root is d / √(1 - 4w) = d + 2dw(1 + 3w + 10w² + 35w³ + ..)
    let w = (t - d * d) * (0.25 / t);
    let ww = w * w;
    let series = 1.0
        + 3.0 * w
        + 35.0 * ww * (w + 0.2857142857142857)
        + ww * ww * (126.0 + 462.0 * w);
    d + d * (w + w) * series
}

// The 53 digits of the root of a float with the digits of the pattern b, which is not subnormal, and
// an exponent odd or even as b's: those of the estimate, if they pass the check.
fn near_root(b: u64) -> u64
    ensures { result ≡ near_root ((b % 2 ^ 52 + 2 ^ 52) * (2 - b / 2 ^ 52 % 2) * 2 ^ 52) }
{
    let m = b % TWO_52 + TWO_52;
    let n = m * (2 - (b >> 52) % 2);
    // the float times an even power of two is t, from 1/2 to 2, with the pattern m + place; and the
    // pattern of its root is q + place
    let t = b % TWO_53 + 1022 * TWO_52;
    let place = t - m;
    let s = estimate(f64::from_bits(t));
    if !s.is_nan() {
        let q = std::num::wrapping_sub_u64(s.to_bits(), place);
        if is_nearest(n, q) {
            return q;
        }
    }
    by_digits(n)
}

// The pattern of the root of the float with the pattern b, above 0 and below the infinity's.
fn positive(b: u64) -> u64
    requires { (0 < b) × (b < 2047 * 2 ^ 52) }
    ensures { from_bits binary64 result ≡ root_of (from_bits binary64 b) }
{
    let field = b >> 52;
    if field == 0 {
        // its z digits, moved up to 53 of them, in a pattern that is not subnormal
        let zeros = b.leading_zeros() as u64;
        let m = b << (zeros - 11);
        let z = 64 - zeros;
        ((z + 1) / 2 + 484) * TWO_52 + near_root(z % 2 * TWO_52 + m % TWO_52)
    } else {
        ((field + 53) / 2 + 484) * TWO_52 + near_root(b)
    }
}

// The square root of x, rounded to nearest even: a NaN below 0, and x itself at a zero, a NaN and
// the infinity. It is the definition's, and IEEE 754's.
pub fn root(x: f64) -> f64
    ensures { (result ≡ root_of x) × SquareRoot x result }
{
    if x.is_nan() {
        return x;
    }
    if x == 0.0 {
        return x;
    }
    if x < 0.0 {
        return f64::NAN;
    }
    if x == f64::INFINITY {
        return x;
    }
    f64::from_bits(positive(x.to_bits()))
}
