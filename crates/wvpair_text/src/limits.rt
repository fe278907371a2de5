// How large an input and a text of `wvpair` may be. Definitions use the same numbers, from
// specs/Limits.antt.

// What stands before the payload: 12 entropy bytes, and 2 of the frame count.
pub(crate) const HEAD_BYTES: usize = 14;

// Frames that are read: their samples lie in an array on the stack.
pub(crate) const MOST_FRAMES: usize = 1024;

// Samples of the most frames, two for each.
pub(crate) const MOST_SAMPLES: usize = 2048;

// The longest input that is read: what stands before the payload, and 28 bytes of payload for each
// of 1,024 frames, which is what packing may write for them.
pub const LARGEST_INPUT: usize = 28686;

// The longest text that is printed: 1,024 lines of at most 24 bytes, and an `end` line of at most
// 18.
pub const LARGEST_TEXT: usize = 24594;
