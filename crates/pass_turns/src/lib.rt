// What every loop of a pass over a buffer is made of: a frame, read and stored, and one channel's step
// in either direction. The loops stand in `lag_ring`, `lag_runs`, `two_runs` and `cross_runs`, a kind
// of term each. In each the weights and the samples that are looked back at are locals, and the pass
// is put together again after the loop: a match or a struct inside it is several times slower.

#![tactic(auto)]

mod frames;
mod turns;

pub use crate::frames::{Frame, frame_at, store_frame};
pub use crate::turns::{Turned, turn, with_state};
