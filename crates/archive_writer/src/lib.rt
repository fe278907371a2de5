// Implements document 02 §9 (Q9.1 to Q9.3, Q9.10): a recording as the blocks of an archive. The blocks
// of several recordings, one after the other, are the file of all of them.

#![tactic(auto)]

ghost use Rattle.std.specs.Prelude.{◌≡◌, ◌++◌, ◌+◌, ◌*◌, ◌≤◌, ◌<◌, min, length, take, drop};
ghost use Rattle.answers.specs.Limits.{max_payload_bytes};
ghost use Rattle.overlay.specs.Overlay.{overlay};
ghost use Rattle.archive.specs.Block.{block_bytes, max_used, block};
ghost use Rattle.archive.specs.Recording.{head_bytes, head, blocks_for, numbered, joined};
ghost use Rattle.archive_writer.specs.Write.{view_write, write_entry};

use answers::Refusal;
use answers::limits::MAX_PAYLOAD_BYTES;
use block_check::{BLOCK_BYTES, HEAD_BYTES, MAX_USED};
use block_laying::lay_block;

// The bytes before a payload: house, start second, issue, and the payload's length.
fn head_bytes(house: u16, start: u32, issue: u16, length: u32) -> [u8; HEAD_BYTES]
    ensures { result ≡ head house start issue length }
{
    let [a, b] = house.to_le_bytes();
    let [c, d, e, f] = start.to_le_bytes();
    let [g, h] = issue.to_le_bytes();
    let [i, j, k, l] = length.to_le_bytes();
    [a, b, c, d, e, f, g, h, i, j, k, l]
}

// Lays block i of a recording at its place: what is there of the bytes before the payload, and of the
// payload.
fn lay_numbered(front: &[u8], payload: &[u8], i: usize, out: &mut [u8])
    requires front { length front.now ≡ head_bytes }
    requires limit { length payload.now ≤ max_payload_bytes }
    requires number { i < blocks_for (head_bytes + length payload.now) }
    requires room { 512 * i + block_bytes ≤ length out.old }
    ensures { out.new
        ≡ overlay out.old (512 * i)
        (block i (take max_used (drop (504 * i) (front.now ++ payload.now)))) }
{
    let skip = (MAX_USED * i).min(HEAD_BYTES);
    let from = MAX_USED * i - skip;
    let end = (MAX_USED * i + (MAX_USED - HEAD_BYTES)).min(payload.len());
    lay_block(i, &front[skip..], &payload[from..end], BLOCK_BYTES * i, out);
}

// Lays all blocks of a recording from the first byte on.
fn lay_blocks(front: &[u8], payload: &[u8], count: usize, out: &mut [u8])
    requires front { length front.now ≡ head_bytes }
    requires limit { length payload.now ≤ max_payload_bytes }
    requires number { count ≡ blocks_for (head_bytes + length payload.now) }
    requires room { 512 * count ≤ length out.old }
    ensures { out.new
        ≡ overlay out.old 0
        (joined (numbered count 0 (front.now ++ payload.now))) }
{
    for i in 0..count {
        lay_numbered(front, payload, i, out);
    }
}

// Writes the blocks of a recording from the first byte on, and answers how many bytes they have.
// Refuses with 5 a payload over 4,194,304 bytes, then with 11 storage shorter than the blocks take;
// the storage then keeps its bytes.
pub fn write_recording(
    house: u16,
    start: u32,
    issue: u16,
    payload: &[u8],
    out: &mut [u8],
) -> Result<usize, Refusal>
    ensures { view_write result out.new
        ≡ write_entry (record { house = house; start = start; issue = issue; payload = payload.now })
        out.old }
{
    if payload.len() > MAX_PAYLOAD_BYTES {
        return Err(Refusal::TooLarge);
    }
    let count = (payload.len() + HEAD_BYTES).div_ceil(MAX_USED);
    if out.len() < BLOCK_BYTES * count {
        return Err(Refusal::OutputTooShort);
    }
    let front = head_bytes(house, start, issue, payload.len() as u32);
    lay_blocks(&front, payload, count, out);
    Ok(BLOCK_BYTES * count)
}
