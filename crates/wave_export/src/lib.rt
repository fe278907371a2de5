// Implements document 02 §1 (Q1.1, Q1.2, Q1.3): export, a recording as the bytes of a sound file. All
// tests come before the first byte is written.

#![tactic(auto)]

ghost use Rattle.std.specs.Prelude.{◌≡◌};
ghost use Rattle.answers.specs.Numbers.{outcome_number};
ghost use Rattle.wave_export.specs.Export.{export_refusal, view_export, export_entry};

use answers::Refusal;
use answers::limits::MAX_ELEMENTS;
use spans::is_within;
use wave_data::lay_frames;
use wave_file::{HEADER_BYTES, is_rate, lay_header};

// A sample of 16 bits, or its complement, lies below.
const SAMPLE_SPAN: u32 = 32768;

// Answers why export refuses, by 5, 6, 11, 14 and 13, for a buffer of `room` bytes.
#[tactic(auto, using(crate::proofs::ExportLaws::export_long, crate::proofs::ExportLaws::export_odd))]
pub fn export_refusal(rate: u32, samples: &[i32], room: usize) -> Result<(), Refusal>
    ensures { outcome_number result ≡ export_refusal rate samples.now room }
{
    if samples.len() > MAX_ELEMENTS {
        return Err(Refusal::TooLarge);
    }
    if samples.len() % 2 != 0 {
        return Err(Refusal::ListLength);
    }
    if room < HEADER_BYTES + 2 * samples.len() {
        return Err(Refusal::OutputTooShort);
    }
    if !is_rate(rate) {
        return Err(Refusal::NotWave);
    }
    if !is_within(samples, SAMPLE_SPAN) {
        return Err(Refusal::SampleOutOfSpan);
    }
    Ok(())
}

// Writes the sound file of a rate and of samples, left then right, from the first byte of the
// buffer on; answers how many bytes it has. Refuses with 5, 6, 11, 14 and 13; the buffer then keeps
// its bytes.
pub fn export_wave(rate: u32, samples: &[i32], out: &mut [u8]) -> Result<u32, Refusal>
    ensures { view_export result out.new
        ≡ export_entry rate samples.now out.old }
{
    export_refusal(rate, samples, out.len())?;
    let size = 2 * samples.len();
    lay_header(rate, size as u32, out);
    lay_frames(samples, out);
    Ok((HEADER_BYTES + size) as u32)
}
