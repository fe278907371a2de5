// Values of one word or byte in lists of slots. A refused call leaves the lent list as it was.

#![tactic(auto)]

ghost use Rattle.std.specs.Prelude.{◌≡◌};
ghost use Rattle.answers.specs.Numbers.{outcome_number};
ghost use Rattle.slots.specs.Slots.{slot_refusal, leave_values};
ghost use Rattle.value_slots.specs.Values.{log_word_values, log_word_answer};
ghost use Rattle.value_slots.specs.Values.{term_byte_values, weight_byte_values};

use answers::Refusal;
use slots::lay;

// `wv_log_word`: the value of a log word, into 1 slot. Refuses 6, then 17.
pub fn log_word(word: i16, value: &mut [i32]) -> Result<(), Refusal>
    ensures answer { outcome_number result ≡ log_word_answer word value.old }
    ensures value { value.new ≡ leave_values (outcome_number result) (log_word_values word) value.old }
{
    if value.len() < 1 {
        return Err(Refusal::ListLength);
    }
    let number = logpack::wp_exp2s(word)?;
    lay(&[number], 0, value);
    Ok(())
}

// `wv_term_byte`: the term and the delta of a term byte, into 2 slots. Refuses 6.
pub fn term_byte(byte: u8, out: &mut [i32]) -> Result<(), Refusal>
    ensures answer { outcome_number result ≡ slot_refusal 2 out.old }
    ensures out { out.new ≡ leave_values (outcome_number result) (term_byte_values byte) out.old }
{
    if out.len() < 2 {
        return Err(Refusal::ListLength);
    }
    let decoded = pass_bytes::decode_term_byte(byte);
    lay(&[i32::from(decoded.term), decoded.delta], 0, out);
    Ok(())
}

// `wv_weight_byte`: the weight of a weight byte, into 1 slot. Refuses 6.
pub fn weight_byte(byte: u8, out: &mut [i32]) -> Result<(), Refusal>
    ensures answer { outcome_number result ≡ slot_refusal 1 out.old }
    ensures out { out.new ≡ leave_values (outcome_number result) (weight_byte_values byte) out.old }
{
    if out.len() < 1 {
        return Err(Refusal::ListLength);
    }
    lay(&[pass_bytes::expand_weight_byte(byte)], 0, out);
    Ok(())
}
