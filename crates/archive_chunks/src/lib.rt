// Implements document 02 §9 (Q9.4, Q9.6): which recordings of a file are superseded, and whether one is
// there twice. Comparing every recording with every other would take minutes for 100,000 of them, so
// they are taken a chunk at a time: the keys of a chunk are chained, and the whole file is walked once
// for it. A walk reads 16 bytes of each recording.

#![tactic(auto)]

ghost use Rattle.std.specs.Prelude.{◌≡◌, ◌+◌, ◌≤◌, ◌<◌, length};
ghost use Rattle.archive.specs.Places.{At};
ghost use Rattle.archive_keys.specs.Keys.{chunk};
ghost use Rattle.archive_keys.specs.Chains.{Chained};
ghost use Rattle.archive_chunks.specs.Chunks.{KeyIs, LoadedIs, Unmarked, MarkedAll, MetAll, ChunkIs};

use archive_keys::{CHUNK, chain, mark_key};
use recording_heads::{Head, SoundFile, bytes_taken};

// Keys that were loaded, and the place of the recording after them.
#[derive(Clone, Copy)]
struct Loaded {
    count: usize,
    next: usize,
}

// A chunk: its recordings and which of them are superseded, the place after it, and whether one of
// them stands in the file twice.
#[derive(Clone, Copy)]
pub struct Chunk {
    pub count: usize,
    pub next: usize,
    pub twice: bool,
    pub superseded: [bool; CHUNK],
}

// House, start second and issue as one number.
fn key_of(head: Head) -> u64
    requires { (head.house < 65536) × (head.start < 4294967296) × (head.issue < 65536) }
    ensures { KeyIs head.house head.start head.issue result }
{
    (u64::from(head.house) * 4294967296 + u64::from(head.start)) * 65536 + u64::from(head.issue)
}

// Loads the keys of a chunk, from the recording `first` on, which stands at the place.
fn load_keys(file: SoundFile<'_>, at: usize, first: usize, keys: &mut [u64]) -> Loaded
    requires place { At file.bytes.now at first }
    requires room { length keys.old ≡ chunk }
    ensures { LoadedIs file.entry.bytes.now at first keys.new result.count result.next }
{
    let mut next = at;
    for count in 0..CHUNK {
        if next >= file.bytes.len() {
            return Loaded { count, next };
        }
        let head = file.head_at(next, first + count);
        keys[count] = key_of(head);
        next += bytes_taken(head.payload);
    }
    Loaded { count: CHUNK, next }
}

// Walks the file once: marks the keys of a chunk that are superseded, and answers whether one of them
// stands at another place too.
fn mark_all(
    file: SoundFile<'_>,
    first: usize,
    keys: &[u64],
    count: usize,
    heads: &[u16],
    links: &[u16],
    marks: &mut [bool],
) -> bool
    requires count { (count ≤ chunk) × (count ≤ length keys.now) × (count ≤ length marks.old) }
    requires places { first + chunk < 18446744073709551616 }
    requires chained { Chained keys.now count heads.now links.now }
    requires unmarked { Unmarked count marks.old }
    ensures marks { MarkedAll file.entry.bytes.now keys.now count marks.new }
    ensures met { MetAll file.entry.bytes.now first keys.now count result }
{
    let mut twice = false;
    let mut at = 0;
    let mut index = 0;
    while at < file.bytes.len() {
        let head = file.head_at(at, index);
        let key = key_of(head);
        twice |= mark_key(key, index, first, keys, count, heads, links, marks);
        at += bytes_taken(head.payload);
        index += 1;
    }
    twice
}

// The chunk from the recording `first` on, which stands at the place.
pub fn chunk_at(file: SoundFile<'_>, at: usize, first: usize) -> Chunk
    requires place { At file.bytes.now at first }
    ensures { ChunkIs file.entry.bytes.now at first result.count result.next result.twice result.superseded }
{
    let mut keys = [0u64; CHUNK];
    let mut heads = [0u16; 8191];
    let mut links = [0u16; CHUNK];
    let mut marks = [false; CHUNK];
    let loaded = load_keys(file, at, first, &mut keys);
    let count = loaded.count;
    chain(&keys, count, &mut heads, &mut links);
    let twice = mark_all(file, first, &keys, count, &heads, &links, &mut marks);
    Chunk {
        count,
        next: loaded.next,
        twice,
        superseded: marks,
    }
}
