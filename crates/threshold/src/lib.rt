// Implements document 02 §5 (Q5.4): the threshold as it is typed.

#![tactic(auto)]

ghost use Rattle.std.specs.Prelude.{◌≡◌};
ghost use Rattle.threshold.specs.Threshold.{is_digit, threshold_in};

// Whether a byte is a digit. It is a function, so that its contract refuses another answer.
#[tactic(auto, unfolding(crate::specs::Threshold::is_digit))]
fn is_digit(byte: u8) -> bool
    ensures { result ≡ is_digit byte }
{
    b'0' <= byte && byte <= b'9'
}

// Reads a threshold: decimal digits alone, of a number below 2 to the 32. Any other text has none.
#[tactic(auto, using(crate::proofs::ThresholdLaws::too_large))]
pub fn threshold_of(text: &[u8]) -> Option<u32>
    ensures { result ≡ threshold_in text.now }
{
    let mut value: u64 = 0;
    for byte in text {
        if !is_digit(*byte) {
            return None;
        }
        value = 10 * value + u64::from(*byte - b'0');
        if value >= 4294967296 {
            return None;
        }
    }
    if text.is_empty() {
        None
    } else {
        Some(value as u32)
    }
}
