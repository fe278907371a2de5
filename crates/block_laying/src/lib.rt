// Implements document 02 §9 (Q9.1): a block laid into lent storage: number, used bytes, data, zeros, check.

#![tactic(auto)]

ghost use Rattle.std.specs.Prelude.{◌≡◌, ◌++◌, ◌+◌, ◌≤◌, ◌<◌, length};
ghost use Rattle.overlay.specs.Overlay.{overlay};
ghost use Rattle.archive.specs.Block.{block_bytes, max_used, block};

use block_check::{CHECKED_BYTES, check_of};
use decimal::text::put_text;
use little_endian::lay_number;

// Lays the block of a number whose data are two lists of bytes, one after the other.
pub fn lay_block(number: usize, front: &[u8], part: &[u8], at: usize, out: &mut [u8])
    requires number { number < 65536 }
    requires used { length front.now + length part.now ≤ max_used }
    requires room { at + block_bytes ≤ length out.old }
    ensures { out.new
        ≡ overlay out.old at (block number (front.now ++ part.now)) }
{
    let used = front.len() + part.len();
    lay_number(number as u32 + 65536 * (used as u32), at, out);
    let middle = put_text(out, at + 4, front);
    let end = put_text(out, middle, part);
    out[end..at + CHECKED_BYTES].fill(0);
    let check = check_of(&out[at..]);
    lay_number(check, at + CHECKED_BYTES, out);
}
