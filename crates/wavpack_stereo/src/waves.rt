// Sound files. A refused call leaves every lent list as it was, the slots of `answer` too.
ghost use Rattle.std.specs.Prelude.{◌≡◌};
ghost use Rattle.wave_slots.specs.WaveSlots.{export_call, import_call};

use answers::outcome_number;

// The sound file of samples, left then right, at a rate, into `out` from the first byte on; bytes
// written into 1 slot of `answer`. Refuses 6 for `answer`; then 5, 6, 11, 14, 13.
pub fn wv_wave_export(rate: u32, samples: &[i32], out: &mut [u8], answer: &mut [u32]) -> u32
    ensures { record { refusal = result; list = out.new; answer = answer.new }
        ≡ export_call rate samples.now out.old answer.old }
{
    outcome_number(&wave_slots::export_call(rate, samples, out, answer))
}

// The samples of a sound file, left then right, into `samples` from the first place on; rate and
// samples written into 2 slots of `answer`. Refuses 6 for `answer`; then 5, 14, 11.
pub fn wv_wave_import(file: &[u8], samples: &mut [i32], answer: &mut [u32]) -> u32
    ensures { record { refusal = result; list = samples.new; answer = answer.new }
        ≡ import_call file.now samples.old answer.old }
{
    outcome_number(&wave_slots::import_call(file, samples, answer))
}
