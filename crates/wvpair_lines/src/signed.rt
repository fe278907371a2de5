// Implements document 01, "Proved cases" (C6), the samples: decimal text, with `-` before a negative
// number.
ghost use Rattle.std.specs.Prelude.{◌+◌, ◌≤◌, length};
ghost use Rattle.decimal.specs.TextPut.{TextPut};
ghost use Rattle.wvpair_lines.specs.Signed.{signed_decimal};

use decimal::number::put_decimal;
use decimal::text::put_byte;
use spans::distance;

// Lays v in decimal, with `-` before it where it is negative: at most 11 bytes.
pub(crate) fn put_signed(out: &mut [u8], at: usize, v: i32) -> usize
    requires { at + 11 ≤ length out.old }
    ensures text { TextPut out.old out.new at result (signed_decimal v) }
    ensures short { result ≤ at + 11 }
{
    let size = u64::from(distance(v));
    if v < 0 {
        let first = put_byte(out, at, b'-');
        put_decimal(out, first, size)
    } else {
        put_decimal(out, at, size)
    }
}
