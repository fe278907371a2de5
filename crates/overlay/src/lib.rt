// What a lent list holds once values were laid into it: a definition, `overlay` in
// specs/Overlay.antt, and its laws in proofs/OverlayLaws.antt. Every writer of the crates above
// promises what it leaves by it.

#![tactic(auto)]

ghost use Rattle.std.specs.Prelude.{◌≡◌, ◌+◌, ◌≤◌, length};
ghost use Rattle.overlay.specs.Overlay.{overlay};

// Lays values into a list from a place on. It is a loop and no `copy_from_slice`, which would bring `memmove`
// into the library for C: the compiler makes `memcpy` of the loop, or a few stores.
pub fn lay<T: Copy>(values: &[T], at: usize, list: &mut [T])
    requires { at + length values.now ≤ length list.old }
    ensures { list.new ≡ overlay list.old at values.now }
{
    for i in 0..values.len() {
        list[at + i] = values[i];
    }
}
