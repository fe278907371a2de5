// Implements document 02 §5: the morning page, which has for every 1,024 frames of a recording the peaks
// and the clicks of both stems. `page_block` finds them, `page_lines` lays a line for each block; here
// the lists are tested.

#![tactic(auto)]

ghost use Rattle.std.specs.Prelude.{◌≡◌};
ghost use Rattle.answers.specs.Numbers.{outcome_number};
ghost use Rattle.morning_page.specs.Entry.{page_refusal, view_page, page_entry};

use answers::Refusal;
use answers::limits::MAX_ELEMENTS;
use page_lines::{line_count, put_lines};

// Bytes of a line.
pub const LINE_BYTES: usize = 45;

// Answers why the entry refuses, by 5, 6 and 11, for so many samples and bytes of storage.
#[tactic(auto, using(answers::proofs::ListLaws::frames_long, answers::proofs::ListLaws::frames_odd))]
pub fn page_refusal(elements: usize, room: usize) -> Result<(), Refusal>
    ensures { outcome_number result ≡ page_refusal elements room }
{
    if elements > MAX_ELEMENTS {
        return Err(Refusal::TooLarge);
    }
    if elements % 2 != 0 {
        return Err(Refusal::ListLength);
    }
    if room < LINE_BYTES * line_count(elements) {
        return Err(Refusal::OutputTooShort);
    }
    Ok(())
}

// Writes the page of samples, left then right, from the first byte of the storage on; answers how
// many bytes it has. Refuses with 5, 6 and 11; the storage then keeps its bytes.
pub fn morning_page(samples: &[i32], threshold: u32, page: &mut [u8]) -> Result<u32, Refusal>
    ensures { view_page result page.new
        ≡ page_entry threshold samples.now page.old }
{
    page_refusal(samples.len(), page.len())?;
    let written = put_lines(samples, threshold, page);
    Ok(written as u32)
}
