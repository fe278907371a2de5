// Payloads of ones up to a zero, with ones or zeros around them.

ghost use Rattle.std.specs.Prelude.{◌≤◌};

// The byte `i` of a list of bits that are ones from `place` on.
fn ones_from(i: usize, place: usize) -> u8
    requires { i ≤ 20 }
{
    if place <= 8 * i {
        return 255;
    }
    if place >= 8 * i + 8 {
        return 0;
    }
    255 << (place - 8 * i)
}

// 20 bytes with a zero at `zero`, which may lie behind them. By the fill, 0 to 3, there are ones or
// zeros before `at`, and ones or zeros behind the zero.
pub fn with_a_zero(fill: usize, zero: usize, at: usize) -> [u8; 20]
    requires { zero ≤ 160 }
{
    let from = if fill % 2 == 0 { 0 } else { at };
    let on = if fill < 2 { zero + 1 } else { 160 };
    let mut bytes = [0u8; 20];
    for i in 0..20usize {
        bytes[i] = (ones_from(i, from) & !ones_from(i, zero)) | ones_from(i, on);
    }
    bytes
}
