// Decorrelation and analysis by a lent list of passes, which stays lent to the tests and to the run.
ghost use Rattle.std.specs.Prelude.{◌≡◌};
ghost use Rattle.answers.specs.Numbers.{outcome_number};
ghost use Rattle.decorrelation.specs.Lists.{listed, decorrelation, analysis};

use answers::Refusal;
use list_runs::run_list;
use list_tests::{all_valid, list_outcome};
use passes::{DecorrPass, Direction};

// Runs every pass of a list that is accepted over the buffer: else nothing changes.
pub(crate) fn run_checked(
    direction: Direction,
    passes: &mut [DecorrPass],
    buffer: &mut [i32],
) -> Result<(), Refusal>
    ensures { record { refusal = outcome_number result; passes = passes.new; buffer = buffer.new }
        ≡ listed direction passes.old buffer.old }
{
    let valid = all_valid(passes);
    list_outcome(valid, passes.len(), buffer.len())?;
    run_list(direction, passes, buffer);
    Ok(())
}

// Decorrelation: turns the residuals of the buffer into samples, each pass in turn, and leaves the
// passes' states. Refuses a buffer of more than 262,144 elements (5), more than 16 passes (9) and
// an invalid term (7), and then changes nothing.
pub fn decorrelate_stereo(passes: &mut [DecorrPass], buffer: &mut [i32]) -> Result<(), Refusal>
    ensures { record { refusal = outcome_number result; passes = passes.new; buffer = buffer.new }
        ≡ decorrelation passes.old buffer.old }
{
    run_checked(Direction::Decorrelation, passes, buffer)
}

// Analysis: turns the samples of the buffer into residuals, the last pass first, and leaves the
// passes as decorrelation would. Refuses as decorrelation does.
pub fn recorrelate_stereo(passes: &mut [DecorrPass], buffer: &mut [i32]) -> Result<(), Refusal>
    ensures { record { refusal = outcome_number result; passes = passes.new; buffer = buffer.new }
        ≡ analysis passes.old buffer.old }
{
    run_checked(Direction::Analysis, passes, buffer)
}
