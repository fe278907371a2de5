// Implements document 02 §9 (Q9.2): the check of a block, over its first 508 bytes.

#![tactic(auto)]

ghost use Rattle.std.specs.Prelude.{◌≡◌, ◌≤◌, length};
ghost use Rattle.archive.specs.Block.{checked_bytes, check_of};

// Bytes of a block, those that the check is over, and those of its data.
pub const BLOCK_BYTES: usize = 512;

pub const CHECKED_BYTES: usize = 508;

pub const MAX_USED: usize = 504;

// Bytes of a recording's stream before its payload: house, start second, issue and the payload's length.
pub const HEAD_BYTES: usize = 12;

// The check: the sum of (position + 1) × byte. It stays below 2 to the 25.
pub fn check_of(block: &[u8]) -> u32
    requires { checked_bytes ≤ length block.now }
    ensures { result ≡ check_of block.now }
{
    let mut sum = 0;
    for (i, byte) in block[..CHECKED_BYTES].iter().enumerate() {
        sum += (i as u32 + 1) * u32::from(*byte);
    }
    sum
}
