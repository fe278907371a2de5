// Implements document 02 §1 (Q1.1, Q1.2, Q1.4): import, the rate and the samples of a sound file. All
// tests come before the first sample is written.

#![tactic(auto)]

ghost use Rattle.std.specs.Prelude.{◌≡◌};
ghost use Rattle.answers.specs.Numbers.{outcome_number};
ghost use Rattle.wave_import.specs.Import.{import_refusal, view_import, import_entry};

use answers::Refusal;
use wave_data::take_samples;
use wave_file::{HEADER_BYTES, MAX_FILE_BYTES};
use wave_header::{is_wave, rate_of};

// What import answers of a file that it takes: the rate, and the samples written.
#[derive(Clone, Copy)]
pub struct Imported {
    pub rate: u32,
    pub written: u32,
}

// Answers why import refuses, by 5, 14 and 11, for a list of `room` samples.
pub fn import_refusal(file: &[u8], room: usize) -> Result<(), Refusal>
    ensures { outcome_number result ≡ import_refusal file.now room }
{
    if file.len() > MAX_FILE_BYTES {
        return Err(Refusal::TooLarge);
    }
    if !is_wave(file) {
        return Err(Refusal::NotWave);
    }
    if room < (file.len() - HEADER_BYTES) / 2 {
        return Err(Refusal::OutputTooShort);
    }
    Ok(())
}

// Writes the samples of a sound file, left then right, from the first place of the list on; answers
// its rate and how many samples it has. Refuses with 5, 14 and 11; the list then keeps its samples.
pub fn import_wave(file: &[u8], samples: &mut [i32]) -> Result<Imported, Refusal>
    ensures { view_import result samples.new
        ≡ import_entry file.now samples.old }
{
    import_refusal(file, samples.len())?;
    take_samples(file, samples);
    Ok(Imported {
        rate: rate_of(file),
        written: ((file.len() - HEADER_BYTES) / 2) as u32,
    })
}
