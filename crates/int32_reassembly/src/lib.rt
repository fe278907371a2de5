// Reassembly, after int32.rs: each sample with its literal bits and the redundant bits below it. First
// all literal bits are put in, then all redundant ones. Every test comes before the first sample is
// written.

#![tactic(auto)]

ghost use Rattle.std.specs.Prelude.{◌≡◌, length};
ghost use Rattle.answers.specs.Numbers.{outcome_number};
ghost use Rattle.bits.specs.Bits.{bits_of};
ghost use Rattle.int32.specs.Reassemble.{Readable, reassembled};
ghost use Rattle.int32.specs.Reassemble.{reassemble_refusal, view_reassemble, reassemble_entry};

use answers::Refusal;
use int32::{Int32Info, info_refusal};
use int32_literals::append_literals;
use int32_redundancy::reinsert_redundancy;
use int32_sample::redundancy_of;

// Answers why reassembly refuses, by 15, 5 and 3, for so many samples and literal bytes.
pub fn reassemble_refusal(info: Int32Info, samples: usize, room: usize) -> Result<(), Refusal>
    ensures { outcome_number result ≡ reassemble_refusal info samples room }
{
    info_refusal(info, samples)?;
    if room < (samples * info.sent_bits as usize).div_ceil(8) {
        return Err(Refusal::Truncated);
    }
    Ok(())
}

// Both, where there are any.
fn put_in(info: Int32Info, samples: &mut [i32], literal: &[u8])
    requires { Readable info (length samples.old) (length literal.now) }
    ensures { samples.new
        ≡ reassembled info (bits_of literal.now) samples.old }
{
    let bits = info.redundant_bits();
    if info.sent_bits == 0 {
        reinsert_redundancy(samples, bits);
        return;
    }
    append_literals(samples, literal, info.sent_bits);
    if redundancy_of(bits).count == 0 {
        return;
    }
    reinsert_redundancy(samples, bits);
}

// Completes each sample by literal bits, from the first one on, and by redundant bits; answers how
// many literal bits were read. Refuses with 15, 5 and 3; the samples then stay as they were.
pub fn reassemble_int32(
    info: Int32Info,
    samples: &mut [i32],
    literal: &[u8],
) -> Result<u32, Refusal>
    ensures { view_reassemble result samples.new
        ≡ reassemble_entry info samples.old literal.now }
{
    reassemble_refusal(info, samples.len(), literal.len())?;
    put_in(info, samples, literal);
    Ok(samples.len() as u32 * info.sent_bits)
}
