// The medians of an entropy payload in a list of slots. A refused call leaves the lent list as it was.

#![tactic(auto)]

ghost use Rattle.std.specs.Prelude.{◌≡◌};
ghost use Rattle.answers.specs.Numbers.{outcome_number};
ghost use Rattle.slots.specs.Slots.{leave_values};
ghost use Rattle.entropy_slots.specs.EntropySlots.{entropy_values, entropy_answer};

use answers::Refusal;
use entropy_info::expand_entropy;
use slots::lay;

// `wv_entropy`: the signed medians of an entropy payload, left then right, into 6 slots. Refuses 6,
// then 1, then 17.
pub fn entropy_medians(entropy: &[u8], medians: &mut [i32]) -> Result<(), Refusal>
    ensures answer { outcome_number result ≡ entropy_answer entropy.now medians.old }
    ensures medians { medians.new
        ≡ leave_values (outcome_number result) (entropy_values entropy.now) medians.old }
{
    if medians.len() < 6 {
        return Err(Refusal::ListLength);
    }
    let info = expand_entropy(entropy)?;
    lay(&info.medians_left, 0, medians);
    lay(&info.medians_right, 3, medians);
    Ok(())
}
