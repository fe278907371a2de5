// Export and import of sound files for a caller that holds what it is told in a list of slots. A
// refused call leaves every lent list as it was, the slots too.

#![tactic(auto)]

ghost use Rattle.std.specs.Prelude.{◌≡◌};
ghost use Rattle.answers.specs.Numbers.{outcome_number};
ghost use Rattle.wave_slots.specs.WaveSlots.{export_call, import_call};

use answers::Refusal;
use slots::lay;
use wave_export::export_wave;
use wave_import::import_wave;

// `wv_wave_export`: the file into `out`, and into 1 slot how many bytes it has. Refuses 6 for
// `answer`, then 5, 6, 11, 14 and 13.
pub fn export_call(
    rate: u32,
    samples: &[i32],
    out: &mut [u8],
    answer: &mut [u32],
) -> Result<(), Refusal>
    ensures { record { refusal = outcome_number result; list = out.new; answer = answer.new }
        ≡ export_call rate samples.now out.old answer.old }
{
    if answer.len() < 1 {
        return Err(Refusal::ListLength);
    }
    let written = export_wave(rate, samples, out)?;
    lay(&[written], 0, answer);
    Ok(())
}

// `wv_wave_import`: the samples of the file into `samples`, and into 2 slots its rate and how many
// samples it has. Refuses 6 for `answer`, then 5, 14 and 11.
pub fn import_call(file: &[u8], samples: &mut [i32], answer: &mut [u32]) -> Result<(), Refusal>
    ensures { record { refusal = outcome_number result; list = samples.new; answer = answer.new }
        ≡ import_call file.now samples.old answer.old }
{
    if answer.len() < 2 {
        return Err(Refusal::ListLength);
    }
    let told = import_wave(file, samples)?;
    lay(&[told.rate, told.written], 0, answer);
    Ok(())
}
