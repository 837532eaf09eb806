#![tactic(auto)]
// A stable sort of floats, by halves: n log n, and linear where the floats stand in order. Stays: std's stable sort asks for an allocator, and
// there is no heap; its other sort may swap equal floats, and the two zeros differ in their bits.
ghost use Rattle.std.specs.Prelude.{◌≡◌, ◌/◌, ◌≤◌, length, drop, take};
ghost use Rattle.base_lists.specs.All.{All};
ghost use Rattle.knots_sort.specs.Own.Sortable.{most_knots, Number};
ghost use Rattle.knots_sort.specs.Sort.{sorted};
ghost use Rattle.knots_sort.specs.Own.Merge.{merged_runs, Halves};

// The most floats that are sorted, and so the most knots of a curve: two a segment. Stays: that a slice has no more is a clause of each function
// that hands one down, since what is sorted is a part of what was lent: on the way a struct round the slice, or an array, would be taken apart.
pub const MOST_KNOTS: usize = 8192;

// The list left merged with what stands behind its length in a, into a from its start. Where it is read and written next depends on what
// is compared, so no range counts that. Stays: both loops stand here, since with the inner one in a function of its own the merge takes up to a tenth
// more instructions.
fn merge(left: &[f64], a: &mut [f64])
    requires { length left.now ≤ length a.old }
    ensures { a.new ≡ merged_runs left.now (drop (length left.now) a.old) }
{
    let mut next = left.len();
    let mut to = 0;
    for &x in left {
        while next < a.len() && a[next] < x {
            a[to] = a[next];
            next += 1;
            to += 1;
        }
        a[to] = x;
        to += 1;
    }
}

// Copies from to to, float by float. Stays: a slice's `copy_from_slice` would need C's `memmove`, and the library needs nothing but C's
// `memset`.
fn copy(from: &[f64], to: &mut [f64])
    requires { length from.now ≡ length to.old }
    ensures { to.new ≡ from.now }
{
    for (i, x) in from.iter().enumerate() {
        to[i] = *x;
    }
}

// Merges the first m of a, and the others, both in order. Halves that stand in order are not moved. Stays: one slice and a place in it, since what
// is merged is written over both halves.
fn join(a: &mut [f64], scratch: &mut [f64], m: usize)
    requires { Halves a.old scratch.old m }
    ensures { a.new ≡ merged_runs (take m a.old) (drop m a.old) }
{
    if a[m] < a[m - 1] {
        let left = &mut scratch[..m];
        copy(&a[..m], left);
        merge(left, a);
    }
}

// Sorts a by halves. Scratch has room for half of a.
fn merge_sort(a: &mut [f64], scratch: &mut [f64])
    requires room { length a.old / 2 ≤ length scratch.old }
    requires numbers { All Number a.old }
    ensures { a.new ≡ sorted a.old }
{
    if a.is_sorted() {
        return;
    }
    let m = a.len() / 2;
    let (first, second) = a.split_at_mut(m);
    merge_sort(first, scratch);
    merge_sort(second, scratch);
    join(a, scratch, m);
}

// Sorts a, stably: up to `MOST_KNOTS` floats, none of them a NaN.
pub fn sort(a: &mut [f64])
    requires { (length a.old ≤ most_knots) × All Number a.old }
    ensures { a.new ≡ sorted a.old }
{
    if a.is_sorted() {
        return;
    }
    let mut scratch = [0.0; MOST_KNOTS / 2];
    merge_sort(a, &mut scratch);
}
