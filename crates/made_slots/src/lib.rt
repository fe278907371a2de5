// A pass in slots, 20 of them, and pass making into slots that a caller of the C interface lends.

#![tactic(auto)]

ghost use Rattle.std.specs.Prelude.{◌≡◌};
ghost use Rattle.answers.specs.Numbers.{outcome_number};
ghost use Rattle.slots.specs.Slots.{leave_values};
ghost use Rattle.made_slots.specs.MadeSlots.{slots_of, pass_answer, pass_values};

use answers::Refusal;
use passes::DecorrPass;
use slots::lay;

// Slots of a pass: its term, delta and weights, and two histories of eight.
pub const PASS_SLOTS: usize = 20;

// A pass as 20 slots hold it.
pub fn pass_slots(p: DecorrPass) -> [i32; PASS_SLOTS]
    ensures { result ≡ slots_of p }
{
    let head = [i32::from(p.term), p.delta, p.weight_a, p.weight_b];
    let mut slots = [0i32; PASS_SLOTS];
    lay(&head, 0, &mut slots);
    lay(&p.history_a, 4, &mut slots);
    lay(&p.history_b, 12, &mut slots);
    slots
}

// A pass made from its parts, into 20 slots. Refuses 6, then 7 and 8 as pass making does, with
// nothing written.
pub fn make_pass(
    term: i8,
    delta: i32,
    weight_a: i32,
    weight_b: i32,
    seed_a: &[i32],
    seed_b: &[i32],
    pass: &mut [i32],
) -> Result<(), Refusal>
    ensures answer { outcome_number result
        ≡ pass_answer term seed_a.now seed_b.now pass.old }
    ensures pass { pass.new
        ≡ leave_values (outcome_number result)
        (pass_values term delta weight_a weight_b seed_a.now seed_b.now)
        pass.old }
{
    if pass.len() < PASS_SLOTS {
        return Err(Refusal::ListLength);
    }
    let made = DecorrPass::new(term, delta, weight_a, weight_b, seed_a, seed_b)?;
    lay(&pass_slots(made), 0, pass);
    Ok(())
}
