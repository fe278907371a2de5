// Wide samples. A refused call leaves every lent list as it was, the slots of `answer` too.
ghost use Rattle.std.specs.Prelude.{◌≡◌};
ghost use Rattle.int32_slots.specs.Int32Slots.{reassemble_call, deconstruct_call};

use answers::outcome_number;

// Completes each of `samples` by the next `sent_bits` bits of `literal` and by redundant bits:
// zeros, ones or copies of its lowest bit, the first of `zeros`, `ones`, `dups` that is not 0;
// literal bits read into 1 slot of `answer`. Refuses 6 for `answer`; then 15, 5, 3.
pub fn wv_reassemble_int32(
    sent_bits: u32,
    zeros: u32,
    ones: u32,
    dups: u32,
    samples: &mut [i32],
    literal: &[u8],
    answer: &mut [u32],
) -> u32
    ensures { record { refusal = result; list = samples.new; answer = answer.new }
        ≡ reassemble_call
        (record { sent_bits = sent_bits; zeros = zeros; ones = ones; dups = dups })
        samples.old literal.now answer.old }
{
    outcome_number(&int32_slots::reassemble_call(
        sent_bits, zeros, ones, dups, samples, literal, answer,
    ))
}

// The way back: takes the redundant bits out of `samples`, and the literal ones into `literal` from
// the first bit on; literal bits written into 1 slot of `answer`. Refuses 6 for `answer`; then 15,
// 5, 11, 16.
pub fn wv_deconstruct_int32(
    sent_bits: u32,
    zeros: u32,
    ones: u32,
    dups: u32,
    samples: &mut [i32],
    literal: &mut [u8],
    answer: &mut [u32],
) -> u32
    ensures { record {
      refusal = result;
      samples = samples.new;
      literal = literal.new;
      answer = answer.new;
    }
        ≡ deconstruct_call
        (record { sent_bits = sent_bits; zeros = zeros; ones = ones; dups = dups })
        samples.old literal.old answer.old }
{
    outcome_number(&int32_slots::deconstruct_call(
        sent_bits, zeros, ones, dups, samples, literal, answer,
    ))
}
