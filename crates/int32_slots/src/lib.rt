// Reassembly of wide samples and the way back for a caller that holds what is answered in a list of
// slots. A refused call leaves every lent list as it was, the slots too.

#![tactic(auto)]

ghost use Rattle.std.specs.Prelude.{◌≡◌};
ghost use Rattle.answers.specs.Numbers.{outcome_number};
ghost use Rattle.int32_slots.specs.Int32Slots.{reassemble_call, deconstruct_call};

use answers::Refusal;
use int32::Int32Info;
use int32_deconstruction::deconstruct_int32;
use int32_reassembly::reassemble_int32;
use slots::lay;

// `wv_reassemble_int32`: the samples completed, and into 1 slot how many literal bits were read.
// Refuses 6 for `answer`, then 15, 5 and 3.
pub fn reassemble_call(
    sent_bits: u32,
    zeros: u32,
    ones: u32,
    dups: u32,
    samples: &mut [i32],
    literal: &[u8],
    answer: &mut [u32],
) -> Result<(), Refusal>
    ensures { record { refusal = outcome_number result; list = samples.new; answer = answer.new }
        ≡ reassemble_call
        (record { sent_bits = sent_bits; zeros = zeros; ones = ones; dups = dups })
        samples.old literal.now answer.old }
{
    if answer.len() < 1 {
        return Err(Refusal::ListLength);
    }
    let info = Int32Info {
        sent_bits,
        zeros,
        ones,
        dups,
    };
    let read = reassemble_int32(info, samples, literal)?;
    lay(&[read], 0, answer);
    Ok(())
}

// `wv_deconstruct_int32`: the samples without literal and redundant bits, the literal ones in
// `literal`, and into 1 slot how many there are. Refuses 6 for `answer`, then 15, 5, 11 and 16.
pub fn deconstruct_call(
    sent_bits: u32,
    zeros: u32,
    ones: u32,
    dups: u32,
    samples: &mut [i32],
    literal: &mut [u8],
    answer: &mut [u32],
) -> Result<(), Refusal>
    ensures { record {
      refusal = outcome_number result;
      samples = samples.new;
      literal = literal.new;
      answer = answer.new;
    }
        ≡ deconstruct_call
        (record { sent_bits = sent_bits; zeros = zeros; ones = ones; dups = dups })
        samples.old literal.old answer.old }
{
    if answer.len() < 1 {
        return Err(Refusal::ListLength);
    }
    let info = Int32Info {
        sent_bits,
        zeros,
        ones,
        dups,
    };
    let written = deconstruct_int32(info, samples, literal)?;
    lay(&[written], 0, answer);
    Ok(())
}
