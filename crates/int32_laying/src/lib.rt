// The literal bits of a recording's samples, gathered in one number and laid into lent storage four
// bytes at a time (document 02 §6).

#![tactic(auto)]

ghost use Rattle.std.specs.Prelude.{◌≡◌, map, ◌*◌, ◌≤◌, length};
ghost use Rattle.answers.specs.Limits.{max_elements};
ghost use Rattle.overlay.specs.Overlay.{overlay};
ghost use Rattle.bits.specs.Laid.{bytes_holding};
ghost use Rattle.int32_sample.specs.Sample.{above};
ghost use Rattle.int32.specs.Deconstruct.{literal_of};

use bit_laying::put_bits;
use int32_sample::{low_bits, shifted};
use little_endian::lay_number;

// Lays the `count` low bits of each sample, shifted right first, from the first bit on.
pub fn lay_literals(samples: &[i32], shift: u32, count: u32, out: &mut [u8])
    requires room { (4 * length samples.now ≤ length out.old)
        × (length samples.now ≤ max_elements) }
    requires widths { (shift ≤ 31) × (count ≤ 31) }
    ensures { out.new
        ≡ overlay out.old 0
        (bytes_holding (literal_of count (map (above shift) samples.now))) }
{
    if count == 0 {
        return;
    }
    let mut held: u64 = 0;
    let mut filled: u32 = 0;
    let mut at: usize = 0;
    for sample in samples {
        let bits = u64::from(low_bits(shifted(*sample, shift), count));
        held += bits << filled;
        filled += count;
        if filled >= 32 {
            lay_number((held % 4294967296) as u32, at, out);
            held /= 4294967296;
            filled -= 32;
            at += 4;
        }
    }
    put_bits(&mut out[at..], 0, held as u32, filled);
}
