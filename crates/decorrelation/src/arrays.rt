// Decorrelation and analysis for who has no list to lend: the first passes of an array.
// An array of 16 with a count and no `Vec`: the library has no heap, and the entries that
// docs/DECISIONS.md names take it so.
ghost use Rattle.std.specs.Prelude.{◌≡◌, ◌≤◌, take, drop};
ghost use Rattle.std.specs.Result.{result_unwrap_or};
ghost use Rattle.answers.specs.Limits.{max_passes};
ghost use Rattle.answers.specs.Numbers.{outcome_number};
ghost use Rattle.passes.specs.declared.Direction.TheVariants.{Decorrelation, Analysis};
ghost use Rattle.list_tests.specs.Tests.{all_valid};
ghost use Rattle.list_runs.specs.Chained.{chained};
ghost use Rattle.decorrelation.specs.Lists.{analysis_number, followed, array_answer};

use answers::Refusal;
use answers::limits::MAX_PASSES;
use list_runs::run_list;
use list_tests::{all_valid, list_outcome};
use passes::{DecorrPass, Direction};

// Runs the first `count` passes of an array, lent as a list. It refuses nothing.
fn run_array(
    direction: Direction,
    passes: [DecorrPass; MAX_PASSES],
    count: usize,
    buffer: &mut [i32],
) -> [DecorrPass; MAX_PASSES]
    requires { count ≤ max_passes }
    ensures { record { passes = result; buffer = buffer.new }
        ≡ followed (drop count passes) (chained direction (take count passes) buffer.old) }
{
    let mut list = passes;
    run_list(direction, &mut list[..count], buffer);
    list
}

// What analysis by the first `count` passes of an array says of a buffer of that many elements, as
// `recorrelate_array` answers, and `decorrelate_array` too: 5, 9 and 7. Runs no pass.
pub fn analysis_refusal(
    passes: [DecorrPass; MAX_PASSES],
    count: usize,
    elements: usize,
) -> Result<(), Refusal>
    ensures { outcome_number result
        ≡ analysis_number (all_valid (take count passes)) count elements }
{
    if MAX_PASSES < count {
        return list_outcome(true, count, elements);
    }
    let valid = all_valid(&passes[..count]);
    list_outcome(valid, count, elements)
}

// Decorrelation or analysis by the first `count` passes of an array: the passes as they are then, of
// which those after the first `count` keep their values. A list that is refused changes nothing.
pub fn array_answer(
    direction: Direction,
    passes: [DecorrPass; MAX_PASSES],
    count: usize,
    buffer: &mut [i32],
) -> Result<[DecorrPass; MAX_PASSES], Refusal>
    ensures { record { refusal = outcome_number result; passes = result_unwrap_or result passes; buffer = buffer.new }
        ≡ array_answer direction passes count buffer.old }
{
    analysis_refusal(passes, count, buffer.len())?;
    Ok(run_array(direction, passes, count, buffer))
}

// Decorrelation by the first `count` passes of an array. Refuses as `decorrelate_stereo` does.
pub fn decorrelate_array(
    passes: [DecorrPass; MAX_PASSES],
    count: usize,
    buffer: &mut [i32],
) -> Result<[DecorrPass; MAX_PASSES], Refusal>
    ensures { record { refusal = outcome_number result; passes = result_unwrap_or result passes; buffer = buffer.new }
        ≡ array_answer Decorrelation passes count buffer.old }
{
    array_answer(Direction::Decorrelation, passes, count, buffer)
}

// Analysis by the first `count` passes of an array. Refuses as `recorrelate_stereo` does.
pub fn recorrelate_array(
    passes: [DecorrPass; MAX_PASSES],
    count: usize,
    buffer: &mut [i32],
) -> Result<[DecorrPass; MAX_PASSES], Refusal>
    ensures { record { refusal = outcome_number result; passes = result_unwrap_or result passes; buffer = buffer.new }
        ≡ array_answer Analysis passes count buffer.old }
{
    array_answer(Direction::Analysis, passes, count, buffer)
}
