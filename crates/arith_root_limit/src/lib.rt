#![tactic(auto)]
// A root compared with a limit, mostly without the root: the square of a number is a cut that answers for all that lies beyond it, since a
// root rises with what stands under it. And two roots compared, mostly without either.
ghost use Rattle.std.specs.Prelude.{◌≡◌, Float};
ghost use Rattle.std.specs.Float.Ieee.{lt, le};
ghost use Rattle.std.proofs.Common.{sym};
ghost use Rattle.arith_root.specs.Root.{root_of};
ghost use Rattle.arith_root_limit.specs.Own.Limit.{cut_if, square_if, low_cut, high_cut};

use std::marker::Model;

// A millionth more: what is above zero, and times this is below another number, has a smaller root than that.
pub const A_LITTLE_MORE: f64 = 1.000001;

// The float below 1 and the float above it: what a limit's cuts are the squares of, so that few roots are taken between them.
const JUST_LESS: f64 = 0.9999999999999999;

const JUST_MORE: f64 = 1.0000000000000002;

// A limit for roots, for many comparisons with it. What is below the low cut has a root within the limit, and what is above the high one
// has a root above it.
// Stays: a cut that does not serve is a NaN, with which no comparison holds, so that none has to ask first whether there is one.
#[derive(Clone, Copy)]
pub struct Limit {
    at: f64,
    low: f64,
    high: f64,
}

// A clause sees the limit alone.
impl Model for Limit {
    ghost Value = { Float };

    ghost view = { λ l. l.at };

    ghost invariant = { λ l. (l.low ≡ low_cut l.at) × (l.high ≡ high_cut l.at) };

    ghost inverse = { λ at. record { at = at; low = low_cut at; high = high_cut at } };

    ghost inverse_ok = { λ a h. λ i. record { at = a.at; low = sym h.0 i; high = sym h.1 i } };
}

impl Limit {
    // The limit with its cuts, the squares of numbers that stand on their sides of it.
    pub fn new(at: f64) -> Limit
        ensures { result ≡ at }
    {
        let less = at * JUST_LESS;
        let more = at * JUST_MORE;
        let low = square_if(less <= at, less);
        let high = square_if(at < more, more);
        Limit { at, low, high }
    }

    // Whether the root of s is above the limit. The root is taken only where s lies between the cuts.
    pub fn is_root_above(self, s: f64) -> bool
        ensures { result ≡ lt self (root_of s) }
    {
        if self.high < s {
            return true;
        }
        if s < self.low {
            return false;
        }
        arith_root::root(s) > self.at
    }

    // Whether the root of s is at most the limit. The root is taken only where s lies between the cuts; below zero there is none.
    pub fn is_root_within(self, s: f64) -> bool
        ensures { result ≡ le (root_of s) self }
    {
        if self.high < s {
            return false;
        }
        if s < self.low {
            return 0.0 <= s;
        }
        arith_root::root(s) <= self.at
    }

    // Whether the low cut tells that no root of s is above the limit. `false` says nothing. Without a branch, for callers that have several
    // such answers at once.
    pub fn is_below_low_cut(self, s: f64) -> bool
        ensures { result ≡ lt s (low_cut self) }
    {
        s < self.low
    }

    // Whether the high cut tells that the root of s is not within the limit. `false` says nothing.
    pub fn is_above_high_cut(self, s: f64) -> bool
        ensures { result ≡ lt (high_cut self) s }
    {
        self.high < s
    }
}

// Whether the root of s is below that of t, mostly without either: a root does not fall where what stands under it rises, and it rises to
// another float where that rises by one part in a million.
pub fn is_below(s: f64, t: f64) -> bool
    ensures { result ≡ lt (root_of s) (root_of t) }
{
    if s < t {
        if 0.0 < s {
            if s * A_LITTLE_MORE < t {
                return true;
            }
        }
        return arith_root::root(s) < arith_root::root(t);
    }
    false
}

// A cut that serves, or a NaN, with which no comparison holds. Stays: as in `Limit`; `then_some` would be unwrapped to the same NaN.
pub fn cut_if(serves: bool, x: f64) -> f64
    ensures { result ≡ cut_if serves x }
{
    if serves { x } else { arith::nan() }
}

// The square of a number above zero as a cut, where it serves: what is below it has a root that is not above the number, and what is
// above it one that is not below. Stays: as for `cut_if`.
pub fn square_if(serves: bool, x: f64) -> f64
    ensures { result ≡ square_if serves x }
{
    cut_if(0.0 < x, cut_if(serves, x * x))
}
