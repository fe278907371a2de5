// The 32-bit arithmetic of document 01, "Passes": a number kept to 32 bits. What wraps at 32 bits is
// defined in specs/Wrap.antt; sums, differences and products are the library's wrapping methods, which
// proofs/StdWrap.antt brings under that definition. All inputs are taken.

#![tactic(auto)]

ghost use Rattle.std.specs.Prelude.{◌≡◌};
ghost use Rattle.wrapping.specs.Wrap.{wrap32};

// A 64-bit number kept to 32 bits: its low half, read as signed.
pub fn narrow(x: i64) -> i32
    ensures { result ≡ wrap32 x }
{
    ((x & 0xffff_ffff) as u32).cast_signed()
}
