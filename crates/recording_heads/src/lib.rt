// The numbers before a payload, read where a recording stands in a file, and the bytes that it takes.

#![tactic(auto)]

ghost use Rattle.std.specs.Prelude.{◌≡◌, ◌+◌, ◌*◌, ◌≤◌, ◌<◌, length, drop};
ghost use Rattle.archive.specs.Recording.{blocks_for};
ghost use Rattle.archive.specs.Listing.{recordings_of, Sound};
ghost use Rattle.archive.specs.Places.{At, HeadAt, HeadOf, recording_at};
ghost use Rattle.archive.proofs.SoundLaws.{sound-prop};

use block_check::{BLOCK_BYTES, HEAD_BYTES, MAX_USED};
use little_endian::{number, short_number};

// A file of which no block is bad.
#[derive(Clone, Copy)]
pub struct SoundFile<'a> {
    pub bytes: &'a [u8],
    pub ghost sound: { Sound bytes.now } by { sound-prop bytes.now },
}

impl SoundFile<'_> {
    // The numbers of recording i, which stands at the place.
    pub fn head_at(self, at: usize, i: usize) -> Head
        requires place { At self.bytes.now at i }
        requires one { i < length (recordings_of self.bytes.now) }
        ensures { HeadOf (recording_at self.entry.bytes.now i)
            result.house result.start result.issue result.payload }
    {
        read_head(self.bytes, at)
    }
}

// House, start second, issue, and the payload's length.
#[derive(Clone, Copy)]
pub struct Head {
    pub house: u32,
    pub start: u32,
    pub issue: u32,
    pub payload: u32,
}

// The numbers at a place.
fn read_head(file: &[u8], at: usize) -> Head
    requires { at + 16 ≤ length file.now }
    ensures { HeadAt (drop at file.now) result.house result.start result.issue result.payload }
{
    Head {
        house: short_number(file[at + 4], file[at + 5]),
        start: number(file[at + 6], file[at + 7], file[at + 8], file[at + 9]),
        issue: short_number(file[at + 10], file[at + 11]),
        payload: number(file[at + 12], file[at + 13], file[at + 14], file[at + 15]),
    }
}

// The bytes that a recording takes in the file.
pub fn bytes_taken(payload: u32) -> usize
    ensures { result ≡ 512 * blocks_for (12 + payload) }
{
    BLOCK_BYTES * (payload as usize + HEAD_BYTES).div_ceil(MAX_USED)
}
