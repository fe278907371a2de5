// Lists of samples, copied and compared.

#![tactic(auto)]

ghost use Rattle.std.specs.Prelude.{◌≡◌, length};
ghost use Rattle.trip_lists.specs.Same.{SameIs, CopyIs};

// Copies a list of samples. Each is read, which tells that it has 32 bits (of `copy_from_slice` that
// clause did not prove).
pub fn copy(from: &[i32], to: &mut [i32])
    requires { length from.now ≡ length to.old }
    ensures { CopyIs from.now to.new }
{
    for (i, sample) in from.iter().enumerate() {
        to[i] = *sample;
    }
}

// Whether two lists of one length are the same.
pub fn same(a: &[i32], b: &[i32]) -> bool
    requires { length a.now ≡ length b.now }
    ensures { SameIs a.now b.now result }
{
    a == b
}
