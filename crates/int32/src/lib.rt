// Document 02 §6, after int32.rs: recordings of samples wider than the words. Each sample is completed
// by literal bits of a second bit stream and by redundant bits, and the way back takes both out. Here
// are the fields that say how, and the tests that both entries share.

#![tactic(auto)]

ghost use Rattle.std.specs.Prelude.{◌≡◌};
ghost use Rattle.answers.specs.Numbers.{outcome_number};
ghost use Rattle.int32_sample.specs.Setting.{setting};
ghost use Rattle.int32.specs.Info.{Fields, info_refusal, setting_of};

use answers::Refusal;
use answers::limits::MAX_ELEMENTS;
use int32_sample::RedundantBits;

// The largest number that a field may hold.
const MAX_BITS: u32 = 31;

// Literal bits for each sample; redundant bits: zeros, ones or copies of the lowest bit, the first
// that is not 0.
#[derive(Clone, Copy)]
pub struct Int32Info {
    pub sent_bits: u32,
    pub zeros: u32,
    pub ones: u32,
    pub dups: u32,
}

impl Int32Info {
    // The redundant bits that accepted fields tell of.
    pub fn redundant_bits(self) -> RedundantBits
        requires { Fields self }
        ensures { setting result.zeros result.ones result.dups ≡ setting_of self }
    {
        RedundantBits {
            zeros: self.zeros,
            ones: self.ones,
            dups: self.dups,
        }
    }
}

// Answers 15 for a field above 31, then 5 for over 262,144 samples.
pub fn info_refusal(info: Int32Info, samples: usize) -> Result<(), Refusal>
    ensures { outcome_number result ≡ info_refusal info samples }
{
    if info.sent_bits > MAX_BITS {
        return Err(Refusal::FieldAbove31);
    }
    if info.zeros > MAX_BITS {
        return Err(Refusal::FieldAbove31);
    }
    if info.ones > MAX_BITS {
        return Err(Refusal::FieldAbove31);
    }
    if info.dups > MAX_BITS {
        return Err(Refusal::FieldAbove31);
    }
    if samples > MAX_ELEMENTS {
        return Err(Refusal::TooLarge);
    }
    Ok(())
}
