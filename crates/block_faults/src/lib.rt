// Implements document 02 §9 (Q9.6): what is wrong with a block of an archive, and the first block of a
// file that is bad. A block is judged by itself, by the payload length that its recording announced, and
// by how many blocks of that recording stand before it.

#![tactic(auto)]

ghost use Rattle.std.specs.Prelude.{◌≡◌, ◌==◌, ◌+◌, ◌-◌, ◌*◌, ◌/◌, ◌≤◌, ◌<◌, length, take, drop};
ghost use Rattle.std.specs.List.{list_all};
ghost use Rattle.archive.specs.Block.{block_bytes, number_at};
ghost use Rattle.archive.specs.Faults.{announced_by, used_asked, finished, wrong, next_before};
ghost use Rattle.archive.specs.Faults.{good_blocks};

use answers::limits::MAX_PAYLOAD_BYTES;
use block_check::{BLOCK_BYTES, CHECKED_BYTES, HEAD_BYTES, MAX_USED, check_of};
use little_endian::{number, short_number};

// The number that two bytes of a block hold, from a place on.
fn short_at(block: &[u8], at: usize) -> usize
    requires { at + 2 ≤ length block.now }
    ensures { result ≡ number_at block.now at 2 }
{
    short_number(block[at], block[at + 1]) as usize
}

// And four.
fn number_at(block: &[u8], at: usize) -> usize
    requires { at + 4 ≤ length block.now }
    ensures is { result ≡ number_at block.now at 4 }
    ensures small { result < 4294967296 }
{
    number(block[at], block[at + 1], block[at + 2], block[at + 3]) as usize
}

// A block's position in its recording: the payload length that the recording announced, and how many of
// its blocks stand before.
#[derive(Clone, Copy)]
struct Position {
    announced: usize,
    before: usize,
    ghost small: { announced < 4294967296 },
    ghost within: { 504 * before ≤ 12 + announced },
}

impl Position {
    // Before the first block: no recording has begun.
    fn first() -> Position
        ensures { (result.announced ≡ 0) × (result.before ≡ 0) }
    {
        Position {
            announced: 0,
            before: 0,
        }
    }

    // Whether the block is the last of its recording.
    fn is_last(self) -> bool
        ensures { result ≡ finished self.announced self.before }
    {
        HEAD_BYTES + self.announced <= MAX_USED * (self.before + 1)
    }

    // The used bytes that the block has to have: what is left of the stream, at most 504.
    fn used_asked(self) -> usize
        ensures { result ≡ used_asked self.announced self.before }
    {
        (HEAD_BYTES + self.announced - MAX_USED * self.before).min(MAX_USED)
    }

    // With the payload length that the recording announced: in this block where it is the first, or before.
    fn announced_by(self, block: &[u8]) -> Position
        requires { length block.now ≡ block_bytes }
        ensures announced { result.announced ≡ announced_by self.announced self.before block.now }
        ensures before { result.before ≡ self.before }
    {
        if self.before > 0 {
            return self;
        }
        Position {
            announced: number_at(block, 12),
            before: 0,
        }
    }

    // The position of the next block: in the same recording, or at the start of another one.
    fn next(self) -> Position
        ensures announced { result.announced ≡ self.announced }
        ensures before { result.before ≡ next_before self.announced self.before }
    {
        let before = if self.is_last() { 0 } else { self.before + 1 };
        Position {
            announced: self.announced,
            before,
        }
    }
}

// Whether every byte is 0.
fn is_clear(bytes: &[u8]) -> bool
    ensures { result ≡ list_all (λ byte. byte == 0) bytes.now }
{
    bytes.iter().all(|byte| *byte == 0)
}

// Whether something is wrong with a whole block.
#[tactic(auto, using(crate::proofs::WrongLaws::wrong_long))]
fn block_wrong(block: &[u8], position: Position, last: bool) -> bool
    requires { length block.now ≡ block_bytes }
    ensures { result ≡ wrong last position.announced position.before block.now }
{
    let used = short_at(block, 2);
    if check_of(block) as usize != number_at(block, CHECKED_BYTES)
        || position.announced > MAX_PAYLOAD_BYTES
        || short_at(block, 0) != position.before
        || used != position.used_asked()
        || !is_clear(&block[4 + used..CHECKED_BYTES])
    {
        return true;
    }
    last && !position.is_last()
}

// How many blocks so many bytes are: a started one counts.
pub fn blocks_in(bytes: usize) -> usize
    ensures { result ≡ (bytes + 511) / 512 }
{
    bytes.div_ceil(BLOCK_BYTES)
}

// How many blocks are right up to the first bad one: its number, or that of all blocks where none is bad.
pub fn good_blocks(file: &[u8]) -> usize
    ensures { result ≡ good_blocks file.now }
{
    let count = blocks_in(file.len());
    let mut position = Position::first();
    for (i, block) in file.chunks(BLOCK_BYTES).enumerate() {
        if block.len() < BLOCK_BYTES {
            return i;
        }
        position = position.announced_by(block);
        if block_wrong(block, position, i + 1 == count) {
            return i;
        }
        position = position.next();
    }
    count
}
