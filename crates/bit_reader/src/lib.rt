// `BitReader` (document 01, "Rust forms that need another", F8): a payload that is lent, and a
// place in it. Its functions are thin: each takes the reader apart and leaves the work to an entry
// of `checked_bits` on the slice and the place. `field_at` has plain parameters, for callers that
// hold no reader.

#![tactic(auto)]

ghost use Rattle.std.specs.Prelude.{◌≡◌};
ghost use Rattle.bits.specs.Checked.{told, bits_read_at, unary_read};

use answers::Refusal;
use checked_bits::{checked_get_bits, checked_get_unary};

// The payload, and how many of its bits lie before the next one.
#[derive(Clone, Copy)]
pub struct BitReader<'a> {
    pub payload: &'a [u8],
    pub place: usize,
}

impl<'a> BitReader<'a> {
    // At the first bit.
    pub fn new(payload: &'a [u8]) -> BitReader<'a>
        ensures { (result.payload ≡ payload.entry) × (result.place ≡ 0) }
    {
        BitReader { payload, place: 0 }
    }

    // The same payload at another place: behind a field, at the place that its answer tells.
    pub fn moved_to(self, place: usize) -> BitReader<'a>
        ensures { (result.payload ≡ self.entry.payload) × (result.place ≡ place) }
    {
        BitReader {
            payload: self.payload,
            place,
        }
    }

    // The number of the next `count` bits; the Rust's `get_bit` is that of one bit.
    pub fn get_bits(self, count: u32) -> Result<(u32, usize), Refusal>
        ensures { told result ≡ bits_read_at self.entry.payload.now self.entry.place count }
    {
        checked_get_bits(self.payload, self.place, count)
    }

    // The ones up to the next zero.
    pub fn get_unary(self) -> Result<(u32, usize), Refusal>
        ensures { told result ≡ unary_read self.entry.payload.now self.entry.place }
    {
        checked_get_unary(self.payload, self.place)
    }
}

// The number of `count` bits at a place of a payload, through a reader: for callers that hold none.
pub fn field_at(payload: &[u8], place: usize, count: u32) -> Result<(u32, usize), Refusal>
    ensures { told result ≡ bits_read_at payload.now place count }
{
    BitReader::new(payload).moved_to(place).get_bits(count)
}
