// Archives of recordings in blocks of 512 bytes. A refused call leaves every lent list as it was, the
// slots of `answer` too; only 18 writes them.
ghost use Rattle.std.specs.Prelude.{◌≡◌};
ghost use Rattle.archive_slots.specs.ArchiveSlots.{write_call, read_call};

use answers::outcome_number;

// The blocks of a recording, its house, start second, issue and payload, into `out` from the first byte
// on; bytes written into 1 slot of `answer`. Refuses 6 for `answer`; then 5, 11.
pub fn wv_archive_write(
    house: u16,
    start: u32,
    issue: u16,
    payload: &[u8],
    out: &mut [u8],
    answer: &mut [u32],
) -> u32
    ensures { record { refusal = result; list = out.new; answer = answer.new }
        ≡ write_call (record { house = house; start = start; issue = issue; payload = payload.now })
        out.old answer.old }
{
    outcome_number(&archive_slots::write_call(house, start, issue, payload, out, answer))
}

// The recordings in force of an archive into `list`, 4 numbers each: house, start second, issue, payload
// length; their payloads, one after the other, into `payloads`; recordings in force and payload bytes
// into 2 slots of `answer`, each kept to its low 32 bits. Refuses 6 for `answer`; then 18, with the bad
// block, kept to its low 32 bits, and 0 in the 2 slots; then 19, 11.
pub fn wv_archive_read(
    file: &[u8],
    list: &mut [u32],
    payloads: &mut [u8],
    answer: &mut [u32],
) -> u32
    ensures { record {
      refusal = result;
      list = list.new;
      payloads = payloads.new;
      answer = answer.new;
    }
        ≡ read_call file.now list.old payloads.old answer.old }
{
    outcome_number(&archive_slots::read_call(file, list, payloads, answer))
}
