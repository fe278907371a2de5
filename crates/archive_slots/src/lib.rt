// The writer and the reader of archives for a caller that holds what it is told in a list of slots.

#![tactic(auto)]

ghost use Rattle.std.specs.Prelude.{◌≡◌, [], ◌∷◌, ◌≤◌, length};
ghost use Rattle.answers.specs.Numbers.{outcome_number};
ghost use Rattle.overlay.specs.Overlay.{overlay};
ghost use Rattle.archive_slots.specs.ArchiveSlots.{write_call, low_bits, read_call};

use answers::Refusal;
use archive_reader::{ArchiveFault, read_archive};
use archive_writer::write_recording;
use slots::lay;

// `wv_archive_write`: the blocks of a recording into `out`, and into 1 slot how many bytes they have.
// Refuses 6 for `answer`, then 5 and 11; both lists are then as they were.
pub fn write_call(
    house: u16,
    start: u32,
    issue: u16,
    payload: &[u8],
    out: &mut [u8],
    answer: &mut [u32],
) -> Result<(), Refusal>
    ensures { record { refusal = outcome_number result; list = out.new; answer = answer.new }
        ≡ write_call (record { house = house; start = start; issue = issue; payload = payload.now })
        out.old answer.old }
{
    if answer.len() < 1 {
        return Err(Refusal::ListLength);
    }
    let written = write_recording(house, start, issue, payload, out)?;
    lay(&[written as u32], 0, answer);
    Ok(())
}

// Lays two numbers, each kept to its low 32 bits, into the first 2 slots.
fn lay_two(first: usize, second: usize, answer: &mut [u32])
    requires { 2 ≤ length answer.old }
    ensures { answer.new ≡ overlay answer.old 0 (low_bits first ∷ low_bits second ∷ []) }
{
    let values = [(first % 4294967296) as u32, (second % 4294967296) as u32];
    lay(&values, 0, answer);
}

// `wv_archive_read`: the recordings in force into `list`, 4 numbers each, their payloads into `payloads`,
// and into 2 slots how many recordings and payload bytes these are. Refuses 6 for `answer`, with nothing
// written; then 18, with the bad block and 0 in the 2 slots, 19 and 11. Each refusal leaves `list` and
// `payloads` as they were, and each but 18 `answer` too.
#[tactic(auto, using(crate::proofs::ReadSlotLaws::short_answer))]
pub fn read_call(
    file: &[u8],
    list: &mut [u32],
    payloads: &mut [u8],
    answer: &mut [u32],
) -> Result<(), Refusal>
    ensures { record {
      refusal = outcome_number result;
      list = list.new;
      payloads = payloads.new;
      answer = answer.new;
    }
        ≡ read_call file.now list.old payloads.old answer.old }
{
    if answer.len() < 2 {
        return Err(Refusal::ListLength);
    }
    match read_archive(file, list, payloads) {
        Ok(contents) => {
            lay_two(contents.recordings, contents.bytes, answer);
            Ok(())
        }
        Err(ArchiveFault::BadBlock { block }) => {
            lay_two(block, 0, answer);
            Err(Refusal::BadBlock)
        }
        Err(ArchiveFault::RecordingTwice) => Err(Refusal::RecordingTwice),
        Err(ArchiveFault::OutputTooShort) => Err(Refusal::OutputTooShort),
    }
}
