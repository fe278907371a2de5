// Implements document 02 §9 (Q9.4 to Q9.6): the reader of an archive. All blocks are judged first, then
// the recordings are compared and counted; nothing is written before it is known that everything fits.

#![tactic(auto)]

ghost use Rattle.std.specs.Prelude.{◌≡◌, ◌*◌, ◌≤◌, length};
ghost use Rattle.overlay.specs.Overlay.{overlay};
ghost use Rattle.archive.specs.Listing.{recordings_of, in_force, listed, payloads};
ghost use Rattle.archive_reader.specs.Read.{refusal_of, view_read, read_entry, CountsAre};

use answers::Refusal;
use archive_chunks::chunk_at;
use archive_payloads::{Done, count_chunk, lay_chunk};
use block_faults::{blocks_in, good_blocks};
use recording_heads::SoundFile;

// What an archive holds: how many recordings are in force, and the bytes of their payloads.
#[derive(Clone, Copy, Debug, PartialEq, Eq)]
pub struct Contents {
    pub recordings: usize,
    pub bytes: usize,
}

// Why an archive is not read.
#[derive(Clone, Copy, Debug, PartialEq, Eq)]
pub enum ArchiveFault {
    // The first bad block, counted from 0.
    BadBlock { block: usize },
    // The same house, start second and issue twice.
    RecordingTwice,
    // The list or the storage has no room for what is in force.
    OutputTooShort,
}

impl From<ArchiveFault> for Refusal {
    ghost from_gives = { λ fault refusal. refusal ≡ refusal_of fault };

    fn from(fault: ArchiveFault) -> Refusal {
        match fault {
            ArchiveFault::BadBlock { .. } => Refusal::BadBlock,
            ArchiveFault::RecordingTwice => Refusal::RecordingTwice,
            ArchiveFault::OutputTooShort => Refusal::OutputTooShort,
        }
    }
}

// Counts the recordings in force, chunk by chunk, where none is there twice.
fn count_all(file: SoundFile<'_>) -> Result<Contents, ArchiveFault>
    ensures { CountsAre file.entry.bytes.now result }
{
    let mut done = Done {
        place: 0,
        recordings: 0,
        bytes: 0,
    };
    let mut first: usize = 0;
    let mut twice = false;
    while done.place < file.bytes.len() {
        let chunk = chunk_at(file, done.place, first);
        let superseded = chunk.superseded;
        let count = chunk.count;
        done = count_chunk(file, first, &superseded, count, done);
        twice |= chunk.twice;
        first += count;
    }
    if twice {
        return Err(ArchiveFault::RecordingTwice);
    }
    Ok(Contents {
        recordings: done.recordings,
        bytes: done.bytes,
    })
}

// Lays the recordings in force, chunk by chunk.
fn deliver(file: SoundFile<'_>, list: &mut [u32], out: &mut [u8])
    requires list { 4 * length (in_force (recordings_of file.bytes.now)) ≤ length list.old }
    requires out { length (payloads (in_force (recordings_of file.bytes.now))) ≤ length out.old }
    ensures list { list.new ≡ overlay list.old 0 (listed (in_force (recordings_of file.entry.bytes.now))) }
    ensures out { out.new ≡ overlay out.old 0 (payloads (in_force (recordings_of file.entry.bytes.now))) }
{
    let mut done = Done {
        place: 0,
        recordings: 0,
        bytes: 0,
    };
    let mut first: usize = 0;
    while done.place < file.bytes.len() {
        let chunk = chunk_at(file, done.place, first);
        let superseded = chunk.superseded;
        let count = chunk.count;
        done = lay_chunk(file, first, &superseded, count, done, list, out);
        first += count;
    }
}

// Lists the recordings in force, four numbers each, and lays their payloads one after the other; answers
// how many there are and how many bytes their payloads have. Refuses with 18 and the first bad block,
// then with 19 and 11; list and storage are then as they were.
pub fn read_archive(file: &[u8], list: &mut [u32], out: &mut [u8]) -> Result<Contents, ArchiveFault>
    ensures { view_read result list.new out.new
        ≡ read_entry file.now list.old out.old }
{
    let good = good_blocks(file);
    if good < blocks_in(file.len()) {
        return Err(ArchiveFault::BadBlock { block: good });
    }
    let sound = SoundFile { bytes: file };
    let contents = count_all(sound)?;
    if list.len() < 4 * contents.recordings || out.len() < contents.bytes {
        return Err(ArchiveFault::OutputTooShort);
    }
    deliver(sound, list, out);
    Ok(contents)
}
