// The literal bits of a recording, put in below its samples (document 02 §6).

#![tactic(auto)]

ghost use Rattle.std.specs.Prelude.{◌≡◌, ◌+◌, ◌*◌, ◌≤◌, length, take, drop};
ghost use Rattle.answers.specs.Limits.{max_elements};
ghost use Rattle.bits.specs.Bits.{num, bits_of};
ghost use Rattle.int32.specs.Reassemble.{appended};

use bit_windows::load::window;
use int32_sample::put_below;

// The number of `count` literal bits from the place `at` on.
fn literal_at(literal: &[u8], at: usize, count: u32) -> u32
    requires room { at + count ≤ 8 * length literal.now }
    requires width { count ≤ 31 }
    ensures { result ≡ num (take count (drop at (bits_of literal.now))) }
{
    ((window(literal, at / 8) >> (at % 8)) % (1 << count)) as u32
}

// Puts the next `count` literal bits below each sample.
pub fn append_literals(samples: &mut [i32], literal: &[u8], count: u32)
    requires room { (length samples.old * count ≤ 8 * length literal.now)
        × (length samples.old ≤ max_elements) }
    requires width { count ≤ 31 }
    ensures { samples.new
        ≡ appended count (bits_of literal.now) samples.old }
{
    for (i, sample) in samples.iter_mut().enumerate() {
        let bits = literal_at(literal, i * count as usize, count);
        *sample = put_below(*sample, count, bits);
    }
}
