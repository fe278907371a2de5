// Passes in lists of slots, 20 to a pass: what the C interface's callers hold. The passes of a list
// are taken into an array for a call, since a list of numbers is no list of passes, and laid back
// where the call was accepted.

#![tactic(auto)]

ghost use Rattle.std.specs.Prelude.{◌≡◌, ◌*◌, ◌≤◌, length, take};
ghost use Rattle.answers.specs.Numbers.{outcome_number};
ghost use Rattle.answers.specs.Limits.{max_passes};
ghost use Rattle.decorrelation.specs.Lists.{listed};
ghost use Rattle.made_slots.specs.MadeSlots.{pass_slots};
ghost use Rattle.pass_slots.specs.PassSlots.{slot_term, pass_of, passes_of, list_slots, passes_call};

use answers::Refusal;
use answers::limits::MAX_PASSES;
use decorrelation::array_answer;
use list_tests::list_outcome;
use made_slots::{PASS_SLOTS, pass_slots};
use passes::{DecorrPass, Direction};
use slots::lay;

// The term in a slot; 0, which is no valid one, for a number outside 8 bits.
fn slot_term(slot: i32) -> i8
    ensures { result ≡ slot_term slot }
{
    i8::try_from(slot).unwrap_or(0)
}

// The pass that the first 20 slots hold.
fn pass_in(slots: &[i32]) -> DecorrPass
    requires { pass_slots ≤ length slots.now }
    ensures { result ≡ pass_of slots.now }
{
    let mut history_a = [0i32; 8];
    let mut history_b = [0i32; 8];
    history_a.copy_from_slice(&slots[4..12]);
    history_b.copy_from_slice(&slots[12..PASS_SLOTS]);
    DecorrPass {
        term: slot_term(slots[0]),
        delta: slots[1],
        weight_a: slots[2],
        weight_b: slots[3],
        history_a,
        history_b,
    }
}

// The first `count` passes of a list of slots, in an array.
fn passes_in(slots: &[i32], count: usize) -> [DecorrPass; MAX_PASSES]
    requires { (count ≤ max_passes) × (count * pass_slots ≤ length slots.now) }
    ensures { take count result ≡ passes_of count slots.now }
{
    let mut passes = [DecorrPass::NONE; MAX_PASSES];
    for i in 0..count {
        passes[i] = pass_in(&slots[i * PASS_SLOTS..]);
    }
    passes
}

// Lays the first `count` passes of an array into as many times 20 slots.
fn lay_passes(passes: [DecorrPass; MAX_PASSES], count: usize, slots: &mut [i32])
    requires { (count ≤ max_passes) × (length slots.old ≡ count * pass_slots) }
    ensures { slots.new ≡ list_slots (take count passes) }
{
    for i in 0..count {
        lay(&pass_slots(passes[i]), i * PASS_SLOTS, slots);
    }
}

// Decorrelation or analysis by passes of 20 slots each, which then hold the passes after. Refuses 6
// for a length that is no multiple of 20, then as the entry does; both lists are then as they were.
pub fn run_slots(
    direction: Direction,
    passes: &mut [i32],
    buffer: &mut [i32],
) -> Result<(), Refusal>
    ensures { record { refusal = outcome_number result; passes = passes.new; buffer = buffer.new }
        ≡ passes_call (listed direction) passes.old buffer.old }
{
    let slots = passes.len();
    if slots % PASS_SLOTS != 0 {
        return Err(Refusal::ListLength);
    }
    let count = slots / PASS_SLOTS;
    // the array has no room for more, and they are refused whatever their terms
    if MAX_PASSES < count {
        return list_outcome(true, count, buffer.len());
    }
    let after = array_answer(direction, passes_in(passes, count), count, buffer)?;
    lay_passes(after, count, passes);
    Ok(())
}
