// Numbers in decimal. Digits come out of a number last first, so `put_decimal` lays the digits of
// the tenth part down before its own last one.
ghost use Rattle.std.specs.Prelude.{◌≡◌, ◌+◌, ◌≤◌, ◌<◌, length};
ghost use Rattle.decimal.specs.Decimal.{decimal};
ghost use Rattle.decimal.specs.TextPut.{TextPut};

use crate::text::put_byte;

// The character of a digit.
fn digit(n: u64) -> u8
    requires { n < 10 }
    ensures { result ≡ 48 + n }
{
    48 + n as u8
}

// Lays n in decimal.
pub fn put_decimal(out: &mut [u8], at: usize, n: u64) -> usize
    requires { at + length (decimal n) ≤ length out.old }
    ensures { TextPut out.old out.new at result (decimal n) }
{
    if n < 10 {
        return put_byte(out, at, digit(n));
    }
    let last = put_decimal(out, at, n / 10);
    put_byte(out, last, digit(n % 10))
}
