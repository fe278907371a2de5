// The way back: the redundant bits are taken out of each sample, and the literal bits go into lent
// storage. Every test comes before the first sample or byte is written.

#![tactic(auto)]

ghost use Rattle.std.specs.Prelude.{◌≡◌, map, ◌≤◌};
ghost use Rattle.answers.specs.Numbers.{outcome_number};
ghost use Rattle.int32_sample.specs.Sample.{above};
ghost use Rattle.int32.specs.Deconstruct.{deconstruct_refusal, view_deconstruct, deconstruct_entry};

use answers::Refusal;
use int32::{Int32Info, info_refusal};
use int32_images::is_reinsertable;
use int32_laying::lay_literals;
use int32_sample::{redundancy_of, shifted};

// Answers why the way back refuses, by 15, 5, 11 and 16, for so many literal bytes.
pub fn deconstruct_refusal(info: Int32Info, samples: &[i32], room: usize) -> Result<(), Refusal>
    ensures { outcome_number result ≡ deconstruct_refusal info samples.now room }
{
    info_refusal(info, samples.len())?;
    if room < 4 * samples.len() {
        return Err(Refusal::OutputTooShort);
    }
    if !is_reinsertable(samples, info.redundant_bits()) {
        return Err(Refusal::NotReinsertable);
    }
    Ok(())
}

// Shifts each sample right, past its redundant bits and then past its literal ones.
fn shorten(samples: &mut [i32], shift: u32, count: u32)
    requires { (shift ≤ 31) × (count ≤ 31) }
    ensures { samples.new
        ≡ map (above count) (map (above shift) samples.old) }
{
    for sample in samples.iter_mut() {
        *sample = shifted(shifted(*sample, shift), count);
    }
}

// Takes the redundant bits out of each sample, and its literal bits into storage of 4 bytes a
// sample, from the first bit on; answers how many literal bits were written. Refuses with 15, 5, 11
// and 16; samples and storage then stay as they were.
pub fn deconstruct_int32(
    info: Int32Info,
    samples: &mut [i32],
    literal: &mut [u8],
) -> Result<u32, Refusal>
    ensures { view_deconstruct result samples.new literal.new
        ≡ deconstruct_entry info samples.old literal.old }
{
    deconstruct_refusal(info, samples, literal.len())?;
    let put = redundancy_of(info.redundant_bits());
    lay_literals(samples, put.count, info.sent_bits, literal);
    shorten(samples, put.count, info.sent_bits);
    Ok(samples.len() as u32 * info.sent_bits)
}
