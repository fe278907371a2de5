// Decorrelation and analysis over lists of slots, each in its own direction.

#![tactic(auto)]

ghost use Rattle.std.specs.Prelude.{◌≡◌};
ghost use Rattle.answers.specs.Numbers.{outcome_number};
ghost use Rattle.decorrelation.specs.Lists.{decorrelation, analysis};
ghost use Rattle.pass_slots.specs.PassSlots.{passes_call};

use answers::Refusal;
use pass_slots::run_slots;
use passes::Direction;

// Decorrelation of the buffer by passes of 20 slots each, which then hold the passes after.
pub fn decorrelate_call(passes: &mut [i32], buffer: &mut [i32]) -> Result<(), Refusal>
    ensures { record { refusal = outcome_number result; passes = passes.new; buffer = buffer.new }
        ≡ passes_call decorrelation passes.old buffer.old }
{
    run_slots(Direction::Decorrelation, passes, buffer)
}

// Analysis of the buffer, the last pass first.
pub fn analyse_call(passes: &mut [i32], buffer: &mut [i32]) -> Result<(), Refusal>
    ensures { record { refusal = outcome_number result; passes = passes.new; buffer = buffer.new }
        ≡ passes_call analysis passes.old buffer.old }
{
    run_slots(Direction::Analysis, passes, buffer)
}
