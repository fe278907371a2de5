// Implements document 02 §1: the bytes of a sound file. It has one form only, RIFF WAVE with a
// header of 44 bytes and two channels of 16 bits; specs/File.antt has it field by field. Export
// writes the header, and import compares with it.

#![tactic(auto)]

ghost use Rattle.std.specs.Prelude.{◌≡◌, ◌≤◌, length};
ghost use Rattle.overlay.specs.Overlay.{overlay};
ghost use Rattle.wave_file.specs.File.{header_bytes, max_rate, max_file_bytes, rate_taken, wave_header};
ghost use Rattle.wave_file.specs.Words.{header_words};

use little_endian::lay_number;

// Bytes of the header.
pub const HEADER_BYTES: usize = 44;

// Bytes of a file: the header and 262,144 samples.
pub const MAX_FILE_BYTES: usize = 524332;

// Frames a second.
pub const MAX_RATE: u32 = 192000;

// The letters of each name, the first one lowest.
const RIFF: u32 = 0x46464952;

const WAVE: u32 = 0x45564157;

const FMT: u32 = 0x20746d66;

const DATA: u32 = 0x61746164;

// Two fields of two bytes each, the first one lowest: format 1 and 2 channels; 4 bytes a frame and
// 16 bits a sample.
const FORMAT_AND_CHANNELS: u32 = 0x20001;

const FRAME_AND_SAMPLE: u32 = 0x100004;

// Whether a file can have the rate.
pub fn is_rate(rate: u32) -> bool
    ensures { result ≡ rate_taken rate }
{
    (1..=MAX_RATE).contains(&rate)
}

// The fields of the header before `size` bytes of samples, four bytes each.
fn header_words(rate: u32, size: u32) -> [u32; 11]
    requires rate { rate ≤ max_rate }
    requires size { size ≤ max_file_bytes }
    ensures { result ≡ header_words rate size }
{
    [
        RIFF,
        36 + size,
        WAVE,
        FMT,
        16,
        FORMAT_AND_CHANNELS,
        rate,
        4 * rate,
        FRAME_AND_SAMPLE,
        DATA,
        size,
    ]
}

// Lays the header before `size` bytes of samples into the first 44 bytes.
pub fn lay_header(rate: u32, size: u32, out: &mut [u8])
    requires rate { rate ≤ max_rate }
    requires size { size ≤ max_file_bytes }
    requires room { header_bytes ≤ length out.old }
    ensures { out.new ≡ overlay out.old 0 (wave_header rate size) }
{
    for (i, word) in header_words(rate, size).iter().enumerate() {
        lay_number(*word, 4 * i, out);
    }
}
