// Values of one word or byte, and of the entropy payload. A refused call leaves the lent list as it
// was.
ghost use Rattle.std.specs.Prelude.{◌≡◌};
ghost use Rattle.slots.specs.Slots.{slot_refusal, leave_values};
ghost use Rattle.value_slots.specs.Values.{log_word_values, log_word_answer, term_byte_values, weight_byte_values};
ghost use Rattle.entropy_slots.specs.EntropySlots.{entropy_values, entropy_answer};

use answers::outcome_number;

// The value of a log word, into 1 slot. Refuses 6, then 17.
pub fn wv_log_word(word: i16, value: &mut [i32]) -> u32
    ensures answer { result ≡ log_word_answer word value.old }
    ensures value { value.new ≡ leave_values result (log_word_values word) value.old }
{
    outcome_number(&value_slots::log_word(word, value))
}

// The term and the delta of a term byte, into 2 slots. Refuses 6.
pub fn wv_term_byte(byte: u8, out: &mut [i32]) -> u32
    ensures answer { result ≡ slot_refusal 2 out.old }
    ensures out { out.new ≡ leave_values result (term_byte_values byte) out.old }
{
    outcome_number(&value_slots::term_byte(byte, out))
}

// The weight of a weight byte, into 1 slot. Refuses 6.
pub fn wv_weight_byte(byte: u8, out: &mut [i32]) -> u32
    ensures answer { result ≡ slot_refusal 1 out.old }
    ensures out { out.new ≡ leave_values result (weight_byte_values byte) out.old }
{
    outcome_number(&value_slots::weight_byte(byte, out))
}

// The signed medians of an entropy payload, left then right, into 6 slots. Refuses 6, then 1, then
// 17.
pub fn wv_entropy(entropy: &[u8], medians: &mut [i32]) -> u32
    ensures answer { result ≡ entropy_answer entropy.now medians.old }
    ensures medians { medians.new
        ≡ leave_values result (entropy_values entropy.now) medians.old }
{
    outcome_number(&entropy_slots::entropy_medians(entropy, medians))
}
