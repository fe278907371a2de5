// Recordings in force, counted and laid into lent storage one after the other: four numbers of each into
// a list, and their payloads.

#![tactic(auto)]

ghost use Rattle.std.specs.Prelude.{◌≡◌, [], ◌∷◌, ◌+◌, ◌*◌, ◌≤◌, ◌<◌, length};
ghost use Rattle.overlay.specs.Overlay.{overlay};
ghost use Rattle.archive.specs.Recording.{blocks_for};
ghost use Rattle.archive.specs.Listing.{recordings_of, in_force, listed, payloads};
ghost use Rattle.archive.specs.Places.{At, recording_at};
ghost use Rattle.archive_payloads.specs.Kept.{between, superseded_at, DoneIs, SupersededIs, PartIs};
ghost use Rattle.archive_payloads.specs.Kept.{CountedIs, source_of};

use block_check::{BLOCK_BYTES, HEAD_BYTES, MAX_USED};
use decimal::text::put_text;
use recording_heads::{Head, SoundFile, bytes_taken};

// How far a walk over the recordings has come: the place of the next one, how many are in force, and
// the bytes of their payloads.
#[derive(Clone, Copy)]
pub struct Done {
    pub place: usize,
    pub recordings: usize,
    pub bytes: usize,
}

// Lays the four numbers of a recording.
fn lay_entry(head: Head, at: usize, list: &mut [u32])
    requires { at + 4 ≤ length list.old }
    ensures { list.new
        ≡ overlay list.old at
        (head.house ∷ head.start ∷ head.issue ∷ head.payload ∷ []) }
{
    list[at..at + 4].copy_from_slice(&[head.house, head.start, head.issue, head.payload]);
}

// How many payload bytes stand in one block, after those that are done.
fn part(done: usize, payload: usize) -> usize
    requires { (done < payload) × (payload < 4294967296) }
    ensures { PartIs done payload result }
{
    (payload - done).min(MAX_USED - (HEAD_BYTES + done) % MAX_USED)
}

// Where the payload byte after those that are done stands in the file.
fn source(place: usize, done: usize) -> usize
    requires { (done < 4294967296) × (source_of place done < 18446744073709551616) }
    ensures { result ≡ source_of place done }
{
    let at = HEAD_BYTES + done;
    place + (BLOCK_BYTES * (at / MAX_USED) + 4 + at % MAX_USED)
}

// Lays the payload of recording i, which stands at the place, block by block.
fn copy_payload(
    file: SoundFile<'_>,
    place: usize,
    i: usize,
    payload: usize,
    to: usize,
    out: &mut [u8],
)
    requires place { At file.bytes.now place i }
    requires one { i < length (recordings_of file.bytes.now) }
    requires size { payload ≡ length (recording_at file.bytes.now i).payload }
    requires room { to + payload ≤ length out.old }
    ensures { out.new ≡ overlay out.old to (recording_at file.entry.bytes.now i).payload }
{
    let mut done = 0;
    while done < payload {
        let count = part(done, payload);
        let from = source(place, done);
        let end = from + count;
        put_text(out, to + done, &file.bytes[from..end]);
        done += count;
    }
}

// A walk one recording further.
fn counted(done: Done, superseded: bool, payload: u32) -> Done
    requires { (done.bytes ≤ done.place)
        × (done.recordings ≤ done.place)
        × (done.place + 512 * blocks_for (12 + payload) < 18446744073709551616) }
    ensures { CountedIs done superseded payload result }
{
    let place = done.place + bytes_taken(payload);
    if superseded {
        return Done { place, ..done };
    }
    Done {
        place,
        recordings: done.recordings + 1,
        bytes: done.bytes + payload as usize,
    }
}

// Counts the recordings in force of a chunk that begins with recording `first`.
pub fn count_chunk(
    file: SoundFile<'_>,
    first: usize,
    superseded: &[bool],
    count: usize,
    done: Done,
) -> Done
    requires done { DoneIs file.bytes.now first done.place done.recordings done.bytes }
    requires chunk { SupersededIs file.bytes.now first count superseded.now }
    ensures { DoneIs file.entry.bytes.now (first + count) result.place result.recordings result.bytes }
{
    let mut now = done;
    for m in 0..count {
        let head = file.head_at(now.place, first + m);
        now = counted(now, superseded[m], head.payload);
    }
    now
}

// Lays recording i, which stands at the walk's place, unless it is superseded. List and storage stay two
// parameters: a struct of both would have to promise of each that it is still the same one.
fn lay_one(
    file: SoundFile<'_>,
    i: usize,
    superseded: bool,
    done: Done,
    list: &mut [u32],
    out: &mut [u8],
) -> Done
    requires one { i < length (recordings_of file.bytes.now) }
    requires done { DoneIs file.bytes.now i done.place done.recordings done.bytes }
    requires told { superseded ≡ superseded_at file.bytes.now i }
    requires list { 4 * length (in_force (recordings_of file.bytes.now)) ≤ length list.old }
    requires out { length (payloads (in_force (recordings_of file.bytes.now))) ≤ length out.old }
    ensures done { DoneIs file.entry.bytes.now (i + 1) result.place result.recordings result.bytes }
    ensures list { list.new
        ≡ overlay list.old (4 * done.recordings) (listed (between file.entry.bytes.now i 1)) }
    ensures out { out.new
        ≡ overlay out.old done.bytes (payloads (between file.entry.bytes.now i 1)) }
{
    let place = done.place;
    let head = file.head_at(place, i);
    if superseded {
        return counted(done, true, head.payload);
    }
    let n = done.recordings;
    let to = done.bytes;
    lay_entry(head, 4 * n, list);
    copy_payload(file, place, i, head.payload as usize, to, out);
    counted(done, false, head.payload)
}

// Lays the recordings in force of a chunk that begins with recording `first`.
pub fn lay_chunk(
    file: SoundFile<'_>,
    first: usize,
    superseded: &[bool],
    count: usize,
    done: Done,
    list: &mut [u32],
    out: &mut [u8],
) -> Done
    requires done { DoneIs file.bytes.now first done.place done.recordings done.bytes }
    requires chunk { SupersededIs file.bytes.now first count superseded.now }
    requires list { 4 * length (in_force (recordings_of file.bytes.now)) ≤ length list.old }
    requires out { length (payloads (in_force (recordings_of file.bytes.now))) ≤ length out.old }
    ensures done { DoneIs file.entry.bytes.now (first + count) result.place result.recordings result.bytes }
    ensures list { list.new
        ≡ overlay list.old (4 * done.recordings) (listed (between file.entry.bytes.now first count)) }
    ensures out { out.new
        ≡ overlay out.old done.bytes (payloads (between file.entry.bytes.now first count)) }
{
    let mut now = done;
    for m in 0..count {
        now = lay_one(file, first + m, superseded[m], now, list, out);
    }
    now
}
