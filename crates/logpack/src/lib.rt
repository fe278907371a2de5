// Implements document 01, "Log word": a signed 16-bit log word, expanded to the signed 32-bit value
// that it stands for. A word is an exponent above eight bits that pick a mantissa. Both signs go by
// the rule for words that are not negative. Words whose value does not fit are refused (document
// 02, §7).

#![tactic(auto)]

mod exp2_table;

ghost use Rattle.std.specs.Prelude.{◌≡◌, ◌≤◌, nat_abs, pos};
ghost use Rattle.std.specs.Result.{result_unwrap_or};
ghost use Rattle.answers.specs.Numbers.{outcome_number};
ghost use Rattle.little_endian.specs.LittleEndian.{signed_word};
ghost use Rattle.logpack.specs.LogWord.{magnitude, log_word};
ghost use Rattle.logpack.specs.Reach.{out_of_reach, log_word_refusal, log_word_told};

use answers::Refusal;
use exp2_table::mantissa;
use little_endian::signed_word;

// The value of a word that is not negative. The left shift loses bits only of words that are
// refused.
fn expand_magnitude(word: u32) -> i32
    ensures { result ≡ magnitude word }
{
    let exponent = word / 256;
    if exponent <= 9 {
        (mantissa(word) >> (9 - exponent)) as i32
    } else {
        wrapping::narrow((u64::from(mantissa(word)) << ((exponent - 9) % 32)) as i64)
    }
}

// The value of a word or of its negation, at 32 bits as in the Rust: every word has a negation
// there. A negative word calls once more.
fn expand(word: i32) -> i32
    requires { nat_abs word ≤ 32768 }
    ensures { result ≡ log_word word }
{
    if word < 0 {
        return expand(-word).wrapping_neg();
    }
    expand_magnitude(word as u32)
}

// Whether a word is past the format's reach.
fn is_out_of_reach(word: i16) -> bool
    ensures { result ≡ out_of_reach word }
{
    word >= 8192 || word <= -8192
}

// Answers the signed 32-bit value of a log word. Refuses with 17 where the word is 8192 or more, or
// -8192 or less.
pub fn wp_exp2s(word: i16) -> Result<i32, Refusal>
    ensures outcome { outcome_number result ≡ log_word_refusal word }
    ensures value { result_unwrap_or result (pos 0) ≡ log_word_told word }
{
    if is_out_of_reach(word) {
        return Err(Refusal::LogWordOutOfReach);
    }
    Ok(expand(i32::from(word)))
}

// Answers the value of the log word whose low byte is `lo` and whose high byte is `hi`. Refuses
// with 17 as `wp_exp2s` does.
pub fn expand_log_word(lo: u8, hi: u8) -> Result<i32, Refusal>
    ensures outcome { outcome_number result ≡ log_word_refusal (signed_word lo hi) }
    ensures value { result_unwrap_or result (pos 0) ≡ log_word_told (signed_word lo hi) }
{
    wp_exp2s(signed_word(lo, hi))
}
