// The test of whether every sample is the image of one: the redundant bits that the setting puts in
// are there (document 02 §6).

#![tactic(auto)]

ghost use Rattle.std.specs.Prelude.{◌≡◌};
ghost use Rattle.int32_sample.specs.Setting.{setting};
ghost use Rattle.int32.specs.Deconstruct.{all_reinsertable};

use int32_sample::{Redundancy, RedundantBits, bits_below, low_bits, redundancy_of, shifted};

// Whether every sample is the image of a sample: its low bits are those that belong below the rest.
pub fn is_reinsertable(samples: &[i32], bits: RedundantBits) -> bool
    ensures { result ≡ all_reinsertable (setting bits.zeros bits.ones bits.dups) samples.now }
{
    let Redundancy { count, even, odd } = redundancy_of(bits);
    let mut all = true;
    for sample in samples {
        all &= low_bits(*sample, count) == bits_below(shifted(*sample, count), even, odd);
    }
    all
}
