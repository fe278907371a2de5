// How large an input may be: over a limit an entry refuses. Definitions use the same numbers, from
// specs/Limits.antt.

// Frames of a recording: the most that the format gives a block.
pub const MAX_FRAMES: usize = 131072;

// Elements of a buffer of samples or residuals: two for each frame.
pub const MAX_ELEMENTS: usize = 262144;

// Bytes of a packed payload: 32 for each frame, so more than packing ever writes; a bit's place
// stays far below 2 to the 32.
pub const MAX_PAYLOAD_BYTES: usize = 4194304;

// Passes of a list: the most that the format has.
pub const MAX_PASSES: usize = 16;

// Bits of a packed sample: a run length of 0 takes 1, an escaped prefix at most 81, a code at most
// 28, the sign 1.
pub const MAX_WORD_BITS: usize = 111;

// Bytes that packing is lent for each frame: its two samples take at most 222 bits, which 28 bytes
// hold.
pub const BYTES_PER_FRAME: usize = 28;

// A residual or its complement below this is packed: the intervals of all its counts lie below the
// top bit.
pub const RESIDUAL_SPAN: u32 = 1879048192;
