// The morning page. A refused call leaves every lent list as it was, the slot of `answer` too.
ghost use Rattle.std.specs.Prelude.{◌≡◌};
ghost use Rattle.page_slots.specs.PageSlots.{page_call};

use answers::outcome_number;

// The morning page of samples, left then right, into `page` from the first byte on; bytes written
// into 1 slot of `answer`. Refuses 6 for `answer`; then 5, 6, 11.
pub fn wv_morning_page(samples: &[i32], threshold: u32, page: &mut [u8], answer: &mut [u32]) -> u32
    ensures { record { refusal = result; list = page.new; answer = answer.new }
        ≡ page_call samples.now threshold page.old answer.old }
{
    outcome_number(&page_slots::page_call(samples, threshold, page, answer))
}
