#![tactic(auto)]
// The breaks of a curve inside a range: `inside` of knots.rs.
ghost use Rattle.std.specs.Prelude.{◌≡◌, ◌≤◌, cond, length, take};
ghost use Rattle.std.specs.Float.Ieee.{le};
ghost use Rattle.std.specs.List.Retain.{IsFiltered};
ghost use Rattle.base_lists.specs.Room.{filled};
ghost use Rattle.knots_sort.specs.Own.Sortable.{most_knots};
ghost use Rattle.knots_inside.specs.Breaks.{is_strict, retained_knots, is_near, deduped, passing_upward, passing_knots, inside_upward, inside_of};

// Keeps those that pass a test, which is asked of each in turn, from the start. It answers how many, as those below, and not the part: the
// rest is cleared afterwards. Stays: what is read by number is written by number too, behind what was read.
fn keep_if<F: FnMut(f64) -> bool>(a: &mut [f64], mut passes: F) -> usize
    requires { F.IsAlwaysCallable passes }
    ensures within { result ≤ length a.old }
    ensures kept { IsFiltered F.step passes a.old (take result a.new) }
{
    let mut k = 0;
    for i in 0..a.len() {
        let x = a[i];
        if passes(x) {
            a[k] = x;
            k += 1;
        }
    }
    k
}

// Whether x lies strictly between two bounds; such an x is finite.
fn strict(x: f64, above: f64, below: f64) -> bool
    ensures { result ≡ is_strict above below x }
{
    above < x && x < below
}

// Keeps those strictly between two bounds, from the start; answers how many.
pub fn retain(a: &mut [f64], above: f64, below: f64) -> usize
    ensures within { result ≤ length a.old }
    ensures kept { take result a.new ≡ retained_knots above below a.old }
{
    keep_if(a, |x| strict(x, above, below))
}

// Whether two knots are at most epsilon apart.
fn near(a: f64, b: f64, epsilon: f64) -> bool
    ensures { result ≡ is_near epsilon a b }
{
    arith::abs(a - b) <= epsilon
}

// Keeps the first, and those that are not near the last one kept, from the start; answers how many.
fn dedup(a: &mut [f64], epsilon: f64) -> usize
    ensures within { result ≤ length a.old }
    ensures kept { take result a.new ≡ deduped epsilon a.old }
{
    let Some((first, rest)) = a.split_first_mut() else {
        return 0;
    };
    let mut last = *first;
    1 + keep_if(rest, |x| {
        let apart = !near(x, last, epsilon);
        if apart {
            last = x;
        }
        apart
    })
}

// Keeps those that pass between lo and hi, lo being the smaller, from the start; answers how many. Stays: two numbers, here and
// below, as the Rust's `inside` takes them; this crate does not stand on math.
#[tactic(auto, unfolding(crate::specs::Breaks::passing_upward))]
fn passing_upward(knots: &mut [f64], lo: f64, hi: f64) -> usize
    ensures within { result ≤ length knots.old }
    ensures kept { take result knots.new ≡ passing_upward knots.old lo hi }
{
    let width = hi - lo;
    if 0.0 < width {
        let epsilon = width * 1e-9;
        return retain(knots, lo + epsilon, hi - epsilon);
    }
    0
}

// The two ends of a range upward, the smaller first, whichever way it runs.
fn upward(lo: f64, hi: f64) -> (f64, f64)
    ensures { result ≡ cond (le lo hi) (lo, hi) (hi, lo) }
{
    if lo <= hi { (lo, hi) } else { (hi, lo) }
}

// Keeps those that pass between lo and hi, whichever way the range runs, from the start; answers how many. They stay in their order, and
// none is merged with another.
#[tactic(auto, unfolding(crate::specs::Breaks::passing_knots))]
pub fn passing(knots: &mut [f64], lo: f64, hi: f64) -> usize
    ensures within { result ≤ length knots.old }
    ensures kept { take result knots.new ≡ passing_knots knots.old lo hi }
{
    let (lo, hi) = upward(lo, hi);
    passing_upward(knots, lo, hi)
}

// The breaks between lo and hi, lo being the smaller; +0.0 after them.
fn ascending(knots: &mut [f64], lo: f64, hi: f64) -> usize
    requires { length knots.old ≤ most_knots }
    ensures { (result ≡ length (inside_upward knots.old lo hi)) × (knots.new ≡ filled (length knots.old) (inside_upward knots.old lo hi)) }
{
    let n = passing_upward(knots, lo, hi);
    let passing = &mut knots[..n];
    knots_sort::sort(passing);
    let m = dedup(passing, (hi - lo) * 1e-9);
    base_lists::clear_from(knots, m);
    m
}

// The distinct knots strictly between lo and hi, in order, at the start of knots, and +0.0 after them; answers how many.
#[tactic(auto, unfolding(crate::specs::Breaks::inside_of))]
pub fn inside(knots: &mut [f64], lo: f64, hi: f64) -> usize
    requires { length knots.old ≤ most_knots }
    ensures { (result ≡ length (inside_of knots.old lo hi)) × (knots.new ≡ filled (length knots.old) (inside_of knots.old lo hi)) }
{
    let (lo, hi) = upward(lo, hi);
    ascending(knots, lo, hi)
}
