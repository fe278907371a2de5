// Bits that are gathered in one number, laid byte by byte into the lent rest of a buffer (document 01,
// "Packing", K7, K8). A word's prefix, code and sign go in by one call, so that each byte is stored
// once; bytes after the last one that holds a bit are not stored at all.

#![tactic(auto)]

ghost use Rattle.std.specs.Prelude.{◌≡◌, ◌+◌, ◌*◌, ◌^◌, ◌≤◌, ◌<◌, length};
ghost use Rattle.bits.specs.Bits.{low};
ghost use Rattle.bits.specs.Laid.{put};

// The `count` bits of `value`, from `at` on.
pub fn put_gathered(out: &mut [u8], at: usize, value: u64, count: usize)
    requires room { (at ≤ 8)
        × (0 < count)
        × (count ≤ 56)
        × (at + count ≤ 8 * length out.old) }
    requires value { value < 2 ^ count }
    ensures { out.new ≡ put out.old at (low count value) }
{
    let end = at + count;
    let mut left = u64::from(out[0]) % (1 << at) + (value << at);
    for i in 0..end.div_ceil(8) {
        out[i] = (left % 256) as u8;
        left /= 256;
    }
}
