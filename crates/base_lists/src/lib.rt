#![tactic(auto)]
// Lists in order, sublists and buffers: definitions in specs/, laws in proofs/. The functions fill a buffer's rest.
ghost use Rattle.std.specs.Prelude.{◌≡◌, ◌≤◌, length, take};
ghost use Rattle.base_lists.specs.Room.{filled, padded};

// The value in every element from number `from` on. (`fill` would ask that copying T cannot fail.) Stays: the slice whole, since the clause
// says what all of it holds afterwards.
pub fn fill_from<T: Copy>(a: &mut [T], from: usize, value: T)
    requires { from ≤ length a.old }
    ensures { a.new ≡ padded (length a.old) value (take from a.old) }
{
    a[from..].fill_with(|| value);
}

// +0.0 in every float from number `from` on.
pub fn clear_from(a: &mut [f64], from: usize)
    requires { from ≤ length a.old }
    ensures { a.new ≡ filled (length a.old) (take from a.old) }
{
    fill_from(a, from, 0.0);
}
