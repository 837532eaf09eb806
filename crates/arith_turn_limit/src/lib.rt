#![tactic(auto)]
// An angle compared with a limit by its cosine, mostly without the arc cosine: no angle is above twice the tangent of its half, and
// where it is small it is not far below it either.
ghost use Rattle.std.specs.Prelude.{◌≡◌, true, false, Float};
ghost use Rattle.std.specs.Float.Ieee.{le};
ghost use Rattle.std.proofs.Common.{sym};
ghost use Rattle.arith_trig.specs.Trig.{acos_of};
ghost use Rattle.arith_turn_limit.specs.Own.Limit.{turn_cut, Serves, turn_by, least_turn, fine_turn, over_cut, is_over, is_double_over};

use std::marker::Model;

// The cut for a limit, for many comparisons with one limit: the square of the tangent that half the limit is taken for. Stays: here and below
// limit and cut go side by side, since what `TurnLimit` promises is proved of each cut by itself, and of any limit.
pub fn turn_cut(limit: f64) -> f64
    ensures { result ≡ turn_cut limit }
{
    let half = limit * 0.5;
    let bound = 16.0 * (half / 2.0 / 2.0 / 2.0);
    arith_root_limit::cut_if(
        half <= 1.0,
        arith_root_limit::square_if(bound <= limit, half),
    )
}

// Whether the angle whose cosine is a is at most the limit. The arc cosine is taken only where the square of the tangent of half the
// angle is not below the cut.
pub fn is_turn_within(a: f64, limit: f64, cut: f64) -> bool
    requires { Serves cut limit }
    ensures { result ≡ le (acos_of a) limit }
{
    if 0.0 < a {
        let square = (1.0 - a) / (1.0 + a);
        if 0.0 <= square && square < cut {
            return true;
        }
    }
    arith_trig::acos(a) <= limit
}

// Limits from here on have no cut: an angle whose half has a tangent above 1/4 is only known to be above this.
const LARGEST_LIMIT: f64 = 0.368;

// Limits below this have a finer one: an angle whose half has a tangent above 1/8 is above it.
const FINE_LIMIT: f64 = 0.2448;

// A little above a half: the least turn at a tangent y is 1.9587 y, and 1 / 1.9587 is 0.5106.
const OVER_HALF: f64 = 0.5115;

// The fine one is 1.9896 y, and 1 / 1.9896 is 0.50262.
const FINE_HALF: f64 = 0.5027;

// A halving divides a tangent up to 1/4, up to 1/8, up to 1/16 and up to 1/32 by at most these.
const FIRST_DIVISOR: f64 = 2.03125;

const SECOND_DIVISOR: f64 = 2.0078125;

const THIRD_DIVISOR: f64 = 2.001953125;

const FOURTH_DIVISOR: f64 = 2.00048828125;

// The series of what three halvings leave of 1/4, and of 1/8, is at least this.
const LEAST_SERIES: f64 = 0.9995;

const FINE_SERIES: f64 = 0.9999;

// The least turn at a tangent y: three halvings that divide by at most these, and a series of what is left that is at least this.
fn turn_by(y: f64, first: f64, second: f64, third: f64, series: f64) -> f64
    ensures { result ≡ turn_by y first second third series }
{
    16.0 * (y / first / second / third * series)
}

// What no angle is below whose half has a tangent from y to a quarter.
fn least_turn(y: f64) -> f64
    ensures { result ≡ least_turn y }
{
    turn_by(
        y,
        FIRST_DIVISOR,
        SECOND_DIVISOR,
        THIRD_DIVISOR,
        LEAST_SERIES,
    )
}

// And from y to an eighth.
fn fine_turn(y: f64) -> f64
    ensures { result ≡ fine_turn y }
{
    turn_by(
        y,
        SECOND_DIVISOR,
        THIRD_DIVISOR,
        FOURTH_DIVISOR,
        FINE_SERIES,
    )
}

// The cut above which an angle is above the limit: the square of a tangent so large that the turn at it is above the limit.
#[tactic(auto, unfolding(crate::specs::Own::Limit::over_cut))]
pub fn over_cut(limit: f64) -> f64
    ensures { result ≡ over_cut limit }
{
    if limit < FINE_LIMIT {
        let fine = limit * FINE_HALF;
        return arith_root_limit::square_if(limit < fine_turn(fine), fine);
    }
    let tangent = limit * OVER_HALF;
    arith_root_limit::cut_if(
        limit < LARGEST_LIMIT,
        arith_root_limit::square_if(limit < least_turn(tangent), tangent),
    )
}

// Whether the square of the tangent of half the angle whose cosine is a is above the cut. For an over_cut the angle is then above the
// limit.
pub fn is_turn_over(a: f64, cut: f64) -> bool
    ensures { result ≡ is_over a cut }
{
    cut < (1.0 - a) / (1.0 + a)
}

// A limit for angles with its cuts, for many comparisons with it. Stays: a cut that does not serve is a NaN and no None, as in
// arith_root_limit's Limit.
#[derive(Clone, Copy)]
pub struct TurnLimit {
    at: f64,
    within: f64,
    over: f64,
}

// A clause sees the limit alone.
impl Model for TurnLimit {
    ghost Value = { Float };

    ghost view = { λ l. l.at };

    ghost invariant = { λ l. (l.within ≡ turn_cut l.at) × (l.over ≡ over_cut l.at) };

    ghost inverse = { λ at. record { at = at; within = turn_cut at; over = over_cut at } };

    ghost inverse_ok = { λ a h. λ i. record { at = a.at; within = sym h.0 i; over = sym h.1 i } };
}

impl TurnLimit {
    pub fn new(at: f64) -> TurnLimit
        ensures { result ≡ at }
    {
        TurnLimit {
            at,
            within: turn_cut(at),
            over: over_cut(at),
        }
    }

    // Whether the angle whose cosine is a is at most the limit.
    pub fn is_within(self, a: f64) -> bool
        ensures { result ≡ le (acos_of a) self }
    {
        is_turn_within(a, self.at, self.within)
    }

    // Whether the angle whose cosine is a is surely above the limit, with no arc cosine taken.
    pub fn is_over(self, a: f64) -> bool
        ensures exact { result ≡ is_over a (over_cut self) }
        ensures above { result ≡ true → le (acos_of a) self ≡ false }
    {
        is_turn_over(a, self.over)
    }
}

// A little above a quarter: twice the least turn at a tangent y is 3.9174 y, and 1 / 3.9174 is 0.2553.
const OVER_QUARTER: f64 = 0.2555;

// Whether twice the angle whose cosine is a is surely above the limit, with no root taken (`double_over`).
pub fn is_double_turn_over(a: f64, limit: f64) -> bool
    ensures { result ≡ is_double_over a limit }
{
    // So much that twice the least turn at it is above the limit.
    let tangent = limit * OVER_QUARTER;
    let least = least_turn(tangent);
    0.0 <= a
        && (a < 1.0
            && (0.0 < tangent
                && (limit < 2.0 * LARGEST_LIMIT
                    && (limit < 2.0 * least
                        // The tangent of half the angle has a square that is not below this half.
                        && tangent * tangent < (1.0 - a) / 2.0))))
}
