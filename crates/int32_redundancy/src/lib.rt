// Redundant bits put in below all samples (document 02 §6). Bits that are the same below every sample
// have a loop of their own, which the machine does several at once.

#![tactic(auto)]

ghost use Rattle.std.specs.Prelude.{◌≡◌, map, ◌^◌, ◌≤◌, ◌<◌};
ghost use Rattle.int32_sample.specs.Sample.{below};
ghost use Rattle.int32_sample.specs.Setting.{setting, dups, reinsert};
ghost use Rattle.int32.specs.Info.{Samples32};

use int32_sample::{RedundantBits, bits_below, low_bits_mask, put_below};

// Puts the same bits below each sample, those of n; each was a number of 32 bits.
fn put_each(samples: &mut [i32], count: u32, n: u32)
    requires count { count ≤ 31 }
    requires number { n < 2 ^ count }
    ensures put { samples.new ≡ map (below count n) samples.old }
    ensures read { Samples32 samples.old }
{
    for sample in samples.iter_mut() {
        *sample = put_below(*sample, count, n);
    }
}

// Puts copies of its lowest bit below each sample; each was a number of 32 bits.
fn put_copies(samples: &mut [i32], count: u32)
    requires { count ≤ 31 }
    ensures put { samples.new ≡ map (reinsert (dups count)) samples.old }
    ensures read { Samples32 samples.old }
{
    let mask = low_bits_mask(count);
    for sample in samples.iter_mut() {
        *sample = put_below(*sample, count, bits_below(*sample, 0, mask));
    }
}

// Puts the redundant bits below each sample: zeros, ones or copies.
pub fn reinsert_redundancy(samples: &mut [i32], bits: RedundantBits)
    ensures put { samples.new
        ≡ map (reinsert (setting bits.zeros bits.ones bits.dups)) samples.old }
    ensures read { Samples32 samples.old }
{
    if bits.zeros > 0 {
        put_each(samples, bits.zeros, 0);
        return;
    }
    if bits.ones > 0 {
        put_each(samples, bits.ones, low_bits_mask(bits.ones));
        return;
    }
    put_copies(samples, bits.dups);
}
