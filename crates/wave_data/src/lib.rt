// Implements document 02 §1 (Q1.2): the samples of a sound file, laid after its header and taken out
// of it, two bytes each, left then right.

#![tactic(auto)]

ghost use Rattle.std.specs.Prelude.{◌≡◌, true, ◌++◌, ◌+◌, ◌≤◌, length};
ghost use Rattle.answers.specs.Lists.{Fitting};
ghost use Rattle.overlay.specs.Overlay.{overlay};
ghost use Rattle.little_endian.specs.LittleEndian.{signed_bytes};
ghost use Rattle.wave_file.specs.File.{header_bytes, data_bytes};
ghost use Rattle.wave_data.specs.Data.{within16, file_bytes, file_samples};

use little_endian::{signed_bytes, signed_word};
use overlay::lay;
use wave_file::HEADER_BYTES;

// Lays a frame from a place on, left then right.
fn lay_frame(left: i16, right: i16, at: usize, out: &mut [u8])
    requires { at + 4 ≤ length out.old }
    ensures { out.new ≡ overlay out.old at (signed_bytes left ++ signed_bytes right) }
{
    let [a, b] = signed_bytes(left);
    let [c, d] = signed_bytes(right);
    lay(&[a, b, c, d], at, out);
}

// Lays all frames after the header.
pub fn lay_frames(samples: &[i32], out: &mut [u8])
    requires fits { Fitting (length samples.now) (file_bytes (length samples.now)) (length out.old) }
    requires within { within16 samples.now ≡ true }
    ensures { out.new ≡ overlay out.old header_bytes (data_bytes samples.now) }
{
    for i in 0..samples.len() / 2 {
        let left = samples[2 * i] as i16;
        let right = samples[2 * i + 1] as i16;
        lay_frame(left, right, HEADER_BYTES + 4 * i, out);
    }
}

// Takes the samples after the header into the list.
pub fn take_samples(file: &[u8], samples: &mut [i32])
    requires head { header_bytes ≤ length file.now }
    requires room { length (file_samples file.now) ≤ length samples.old }
    ensures { samples.new ≡ overlay samples.old 0 (file_samples file.now) }
{
    let count = (file.len() - HEADER_BYTES) / 2;
    for i in 0..count {
        let at = HEADER_BYTES + 2 * i;
        samples[i] = i32::from(signed_word(file[at], file[at + 1]));
    }
}
