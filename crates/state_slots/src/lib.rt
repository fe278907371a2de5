// The state of a word, and its place, in 15 slots.

#![tactic(auto)]

ghost use Rattle.std.specs.Prelude.{◌≡◌, ◌≤◌, ◌<◌, length};
ghost use Rattle.overlay.specs.Overlay.{overlay};
ghost use Rattle.word_state.specs.View.{state_of};
ghost use Rattle.state_slots.specs.StateSlots.{slots_state, state_slots};

use entropy::AdaptiveMedians;
use median_slots::lay_medians;
use slots::lay;
use word_state::StereoDecodeState;

// The state that 14 slots after the place hold.
pub fn state_in(slots: &[u32]) -> StereoDecodeState
    requires { 15 ≤ length slots.now }
    ensures { state_of result ≡ slots_state slots.now }
{
    let left = AdaptiveMedians {
        values: [slots[7], slots[8], slots[9]],
    };
    let right = AdaptiveMedians {
        values: [slots[10], slots[11], slots[12]],
    };
    StereoDecodeState {
        medians: [left, right],
        last_zero: slots[2] != 0,
        last_one: slots[3] != 0,
        zero_run_pending: slots[4],
        run_break: slots[5] != 0,
        ever_took_zero_run: slots[6] != 0,
        next_channel: slots[1],
        bits_read: [slots[13], slots[14]],
    }
}

// Lays a place and a state into the first 15 slots.
pub fn lay_state(place: usize, state: StereoDecodeState, slots: &mut [u32])
    requires place { place < 4294967296 }
    requires room { 15 ≤ length slots.old }
    ensures { slots.new
        ≡ overlay slots.old 0 (state_slots place (state_of state)) }
{
    let head = [
        place as u32,
        state.next_channel,
        u32::from(state.last_zero),
        u32::from(state.last_one),
        state.zero_run_pending,
        u32::from(state.run_break),
        u32::from(state.ever_took_zero_run),
    ];
    lay(&head, 0, slots);
    lay_medians(state.medians, 7, slots);
    lay(&state.bits_read, 13, slots);
}
