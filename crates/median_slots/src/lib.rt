// Medians in lists of slots, and the bits before them: what reading and packing report.

#![tactic(auto)]

ghost use Rattle.std.specs.Prelude.{◌≡◌, ◌+◌, ◌≤◌, ◌<◌, length};
ghost use Rattle.entropy.specs.Medians.{pair_of};
ghost use Rattle.overlay.specs.Overlay.{overlay};
ghost use Rattle.median_slots.specs.MedianSlots.{pair_slots, count_slots};

use entropy::AdaptiveMedians;
use slots::lay;

// Lays both sets of medians into 6 slots from a place on.
pub fn lay_medians(medians: [AdaptiveMedians; 2], at: usize, slots: &mut [u32])
    requires { at + 6 ≤ length slots.old }
    ensures { slots.new ≡ overlay slots.old at (pair_slots (pair_of medians)) }
{
    let [left, right] = medians;
    lay(&left.values, at, slots);
    lay(&right.values, at + 3, slots);
}

// Lays bits and medians into the first 7 slots.
pub fn lay_counts(bits: usize, medians: [AdaptiveMedians; 2], slots: &mut [u32])
    requires bits { bits < 4294967296 }
    requires room { 7 ≤ length slots.old }
    ensures { slots.new
        ≡ overlay slots.old 0 (count_slots bits (pair_of medians)) }
{
    lay(&[bits as u32], 0, slots);
    lay_medians(medians, 1, slots);
}
