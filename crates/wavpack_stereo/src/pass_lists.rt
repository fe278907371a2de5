// Pass making, decorrelation and analysis for a caller that holds its passes in lists of slots, 20
// to a pass.
ghost use Rattle.std.specs.Prelude.{◌≡◌};
ghost use Rattle.decorrelation.specs.Lists.{decorrelation, analysis};
ghost use Rattle.slots.specs.Slots.{leave_values};
ghost use Rattle.made_slots.specs.MadeSlots.{pass_answer, pass_values};
ghost use Rattle.pass_slots.specs.PassSlots.{passes_call};

use answers::outcome_number;
use made_slots::make_pass;
use pass_calls::{analyse_call, decorrelate_call};

// A pass made from its parts, into 20 slots. Refuses 6, then 7 and 8 as pass making does, with
// nothing written.
pub fn wv_pass(
    term: i8,
    delta: i32,
    weight_a: i32,
    weight_b: i32,
    seed_a: &[i32],
    seed_b: &[i32],
    pass: &mut [i32],
) -> u32
    ensures answer { result
        ≡ pass_answer term seed_a.now seed_b.now pass.old }
    ensures pass { pass.new
        ≡ leave_values result
        (pass_values term delta weight_a weight_b seed_a.now seed_b.now)
        pass.old }
{
    outcome_number(&make_pass(term, delta, weight_a, weight_b, seed_a, seed_b, pass))
}

// Decorrelation of the buffer by passes of 20 slots each, which then hold the passes after. Refuses
// 6 for a length that is no multiple of 20, then 5, 9 and 7, also for a term outside 8 bits; both
// lists are then as they were.
pub fn wv_decorrelate(passes: &mut [i32], buffer: &mut [i32]) -> u32
    ensures { record { refusal = result; passes = passes.new; buffer = buffer.new }
        ≡ passes_call decorrelation passes.old buffer.old }
{
    outcome_number(&decorrelate_call(passes, buffer))
}

// Analysis of the buffer, the last pass first. It refuses as decorrelation does.
pub fn wv_analyse(passes: &mut [i32], buffer: &mut [i32]) -> u32
    ensures { record { refusal = result; passes = passes.new; buffer = buffer.new }
        ≡ passes_call analysis passes.old buffer.old }
{
    outcome_number(&analyse_call(passes, buffer))
}
