// Keys of recordings: house, start second and issue as one number, so that a later issue of a recording
// is a higher key with the same quotient by 65,536. Keys are looked up a chunk at a time, by chains:
// `heads` has for each bucket the last key of the chunk in it, and `links` for each key the one before
// it in the same bucket; both count from 1, and 0 ends a chain. They are arrays of fixed size and no map:
// the library has no heap.

#![tactic(auto)]

ghost use Rattle.std.specs.Prelude.{◌≡◌, ◌+◌, ◌≤◌, ◌<◌, length};
ghost use Rattle.archive_keys.specs.Keys.{bucket_of, beats, chunk, buckets};
ghost use Rattle.archive_keys.specs.Chains.{Chained, NoHeads, Marked, Met, elsewhere};

// Keys of a chunk.
pub const CHUNK: usize = 4096;

// The bucket of a key: that of its house and start second. The number of buckets is prime, so that seconds
// at regular distances have different ones.
fn bucket(key: u64) -> usize
    ensures { result ≡ bucket_of key }
{
    (key / 65536 % 8191) as usize
}

// Whether a key supersedes another: the same house and start second, and a higher issue.
fn supersedes(key: u64, other: u64) -> bool
    ensures { result ≡ beats key other }
{
    key / 65536 == other / 65536 && other < key
}

// Chains the first `count` keys of a chunk.
pub fn chain(keys: &[u64], count: usize, heads: &mut [u16], links: &mut [u16])
    requires count { (count ≤ chunk) × (count ≤ length keys.now) }
    requires heads { NoHeads heads.old }
    requires links { length links.old ≡ chunk }
    ensures { Chained keys.now count heads.new links.new }
{
    for i in 0..count {
        let b = bucket(keys[i]);
        links[i] = heads[b];
        heads[b] = (i + 1) as u16;
    }
}

// Whether one key of a chunk is another recording's: the same key at another place of the file.
fn repeats(key: u64, index: usize, other: u64, place: usize) -> bool
    ensures { result ≡ elsewhere key index other place }
{
    key == other && index != place
}

// Marks the keys of a chunk that a key supersedes, and answers whether one of them is the same key at
// another place of the file: the chunk's first key stands at place `first`, and the key at `index`.
pub fn mark_key(
    key: u64,
    index: usize,
    first: usize,
    keys: &[u64],
    count: usize,
    heads: &[u16],
    links: &[u16],
    marks: &mut [bool],
) -> bool
    requires count { (count ≤ chunk) × (count ≤ length keys.now) × (count ≤ length marks.old) }
    requires places { first + chunk < 18446744073709551616 }
    requires chained { Chained keys.now count heads.now links.now }
    ensures marks { Marked key keys.now count marks.old marks.new }
    ensures met { Met key index first keys.now count result }
{
    let mut twice = false;
    let mut j = heads[bucket(key)] as usize;
    while j > 0 {
        let m = j - 1;
        let other = keys[m];
        marks[m] |= supersedes(key, other);
        twice |= repeats(key, index, other, first + m);
        j = links[m] as usize;
    }
    twice
}
