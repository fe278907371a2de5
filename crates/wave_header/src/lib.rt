// Implements document 02 §1 (Q1.4): whether bytes are a sound file of the one form that is accepted. The
// header that export would write for the file's rate and length is laid and compared with the file's.

#![tactic(auto)]

ghost use Rattle.std.specs.Prelude.{◌≡◌, ◌≤◌, length};
ghost use Rattle.wave_file.specs.File.{header_bytes, max_file_bytes};
ghost use Rattle.wave_header.specs.Wave.{file_rate, is_wave};

use little_endian::number;
use wave_file::{HEADER_BYTES, is_rate, lay_header};

// The rate that the header of a file holds.
pub fn rate_of(file: &[u8]) -> u32
    requires { header_bytes ≤ length file.now }
    ensures { result ≡ file_rate file.now }
{
    number(file[24], file[25], file[26], file[27])
}

// Whether the bytes are a sound file of the one form that is accepted.
pub fn is_wave(file: &[u8]) -> bool
    requires { length file.now ≤ max_file_bytes }
    ensures { result ≡ is_wave file.now }
{
    if file.len() < HEADER_BYTES {
        return false;
    }
    let size = file.len() - HEADER_BYTES;
    if size % 4 != 0 {
        return false;
    }
    let rate = rate_of(file);
    if !is_rate(rate) {
        return false;
    }
    let mut expected = [0; HEADER_BYTES];
    lay_header(rate, size as u32, &mut expected);
    file.starts_with(&expected)
}
