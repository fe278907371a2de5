// What one word answers, in lists of slots: its sample, its report, and its place and state.

#![tactic(auto)]

ghost use Rattle.std.specs.Prelude.{◌≡◌, ◌≤◌, ◌<◌, length};
ghost use Rattle.answers.specs.Numbers.{outcome_number};
ghost use Rattle.one_word.specs.View.{view_word};
ghost use Rattle.zones.specs.Report.{report_of};
ghost use Rattle.word_slots.specs.WordSlots.{report_slots, leave_word};

use answers::Refusal;
use one_word::WordAnswer;
use slots::lay;
use state_slots::lay_state;
use zones::Zone;

// A word's report as 2 slots hold it.
fn report_slots(zone: Option<Zone>) -> [u32; 2]
    ensures { result ≡ report_slots (report_of zone) }
{
    match zone {
        None => [0, 0],
        Some(Zone::Zone0) => [1, 0],
        Some(Zone::Zone1) => [2, 1],
        Some(Zone::Zone2) => [3, 2],
        Some(Zone::Zone2Overflow { ones_count }) => [4, ones_count],
    }
}

// Lays what one word told: its sample and its report, and where it was accepted its place and
// state.
pub fn lay_word(
    word: WordAnswer,
    state: &mut [u32],
    sample: &mut [i32],
    report: &mut [u32],
) -> Result<(), Refusal>
    requires place { word.place < 4294967296 }
    requires state { 15 ≤ length state.old }
    requires sample { 1 ≤ length sample.old }
    requires report { 2 ≤ length report.old }
    ensures { record {
      refusal = outcome_number result;
      state = state.new;
      sample = sample.new;
      report = report.new;
    }
        ≡ leave_word (view_word word) state.old sample.old report.old }
{
    lay(&[word.sample], 0, sample);
    lay(&report_slots(word.report.zone), 0, report);
    word.outcome?;
    lay_state(word.place, word.state, state);
    Ok(())
}
