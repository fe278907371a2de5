// The morning page for a caller that holds what it is told in a list of slots. A refused call leaves
// every lent list as it was, the slot too.

#![tactic(auto)]

ghost use Rattle.std.specs.Prelude.{◌≡◌};
ghost use Rattle.answers.specs.Numbers.{outcome_number};
ghost use Rattle.page_slots.specs.PageSlots.{page_call};

use answers::Refusal;
use morning_page::morning_page;
use slots::lay;

// `wv_morning_page`: the page into `page`, and into 1 slot how many bytes it has. Refuses 6 for
// `answer`, then 5, 6 and 11.
pub fn page_call(
    samples: &[i32],
    threshold: u32,
    page: &mut [u8],
    answer: &mut [u32],
) -> Result<(), Refusal>
    ensures { record { refusal = outcome_number result; list = page.new; answer = answer.new }
        ≡ page_call samples.now threshold page.old answer.old }
{
    if answer.len() < 1 {
        return Err(Refusal::ListLength);
    }
    let written = morning_page(samples, threshold, page)?;
    lay(&[written], 0, answer);
    Ok(())
}
