#![tactic(auto)]
// e^t, cosh and sinh in fixed steps.
ghost use Rattle.std.specs.Prelude.{◌≡◌};
ghost use Rattle.std.specs.List.{fold};
ghost use Rattle.arith.specs.Notation.{one};
ghost use Rattle.arith_exp.specs.Exp.{exp_step, power_of_two, exp_of};
ghost use Rattle.arith_exp.specs.Own.Hyperbolic.{hyperbolic_of};

// 1 / ln 2, and ln 2 in two parts.
const PER_DOUBLING: f64 = 1.4426950408889634;

const LN2_HIGH: f64 = 0.6931471803691238;

const LN2_LOW: f64 = 1.9082149292705877e-10;

// What the terms of the series are divided by.
const DIVISORS: [f64; 16] = [
    16.0, 15.0, 14.0, 13.0, 12.0, 11.0, 10.0, 9.0, 8.0, 7.0, 6.0, 5.0, 4.0, 3.0, 2.0, 1.0,
];

// The hyperbolic cosine and sine of one number. Stays: one type with arith_trig's SinCos would call a sinh a sine wherever one is worked
// out; a hyperbola's point alone takes it as such (curve_point).
#[derive(Clone, Copy)]
pub struct Hyperbolic {
    pub cosh: f64,
    pub sinh: f64,
}

// e^r of an r at most half of ln 2 from 0: for each divisor d in turn, w becomes 1 + r / d * w, from 1. Stays: in arith_trig's series the
// term is taken off; a minus at the call would give the same bits, but by a law of floats for each step, where each clause has its own formula.
fn series(r: f64, divisors: &[f64]) -> f64
    ensures { result ≡ fold (λ w d. exp_step r d w) one divisors.now }
{
    divisors.iter().fold(1.0, |w, d| 1.0 + r / *d * w)
}

// 2^k of a whole k: the exponent's field alone. 0 from -1023 down, the infinity from 1024 up.
// Stays: with n.min(2047) in place of the branch e^t takes 141 instructions, not 139.
fn power(k: f64) -> f64
    ensures { result ≡ power_of_two k }
{
    let n = arith::to_u64(k + 1023.0);
    if n < 2047 {
        return f64::from_bits(n * 0x10000000000000);
    }
    arith::infinity()
}

// e^t.
pub fn exp(t: f64) -> f64
    ensures { result ≡ exp_of t }
{
    let k = arith::periods(t, PER_DOUBLING);
    series(arith::left_over(t, k, LN2_HIGH, LN2_LOW), &DIVISORS) * power(k)
}

// Both, with e^t and e^-t worked out once.
#[tactic(auto, unfolding(crate::specs::Own::Hyperbolic::hyperbolic_of, crate::specs::Exp::cosh_of, crate::specs::Exp::sinh_of))]
pub fn cosh_sinh(t: f64) -> Hyperbolic
    ensures { result ≡ hyperbolic_of t }
{
    let up = exp(t);
    let down = exp(-t);
    Hyperbolic {
        cosh: (up + down) * 0.5,
        sinh: (up - down) * 0.5,
    }
}
