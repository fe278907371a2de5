// Implements document 01, "Proved cases" (C6), the lines: one for each whole frame, and the `end`
// line. Each writer goes on where the one before it ended, and answers where it ended itself.

#![tactic(auto)]

ghost use Rattle.std.specs.Prelude.{◌+◌, ◌*◌, ◌≤◌, length};
ghost use Rattle.wvpair_lines.specs.Lines.{frame_line, frame_lines, end_line, report};
ghost use Rattle.decimal.specs.TextPut.{TextPut};

use crate::signed::put_signed;
use decimal::number::put_decimal;
use decimal::text::{put_byte, put_text};

mod signed;

// Lays the line of one frame: at most 24 bytes.
fn put_line(out: &mut [u8], at: usize, left: i32, right: i32) -> usize
    requires { at + 24 ≤ length out.old }
    ensures text { TextPut out.old out.new at result (frame_line left right) }
    ensures short { result ≤ at + 24 }
{
    let space = put_signed(out, at, left);
    let second = put_byte(out, space, b' ');
    let newline = put_signed(out, second, right);
    put_byte(out, newline, b'\n')
}

// Lays a line for each whole frame of `samples`: at most 12 bytes a sample.
fn put_lines(out: &mut [u8], at: usize, samples: &[i32]) -> usize
    requires { at + 12 * length samples.now ≤ length out.old }
    ensures text { TextPut out.old out.new at result (frame_lines samples.now) }
    ensures short { result ≤ at + 12 * length samples.now }
{
    let mut place = at;
    for i in 0..samples.len() / 2 {
        place = put_line(out, place, samples[2 * i], samples[2 * i + 1]);
    }
    place
}

// Lays the `end` line.
pub fn put_end(out: &mut [u8], at: usize, refusal: u32, bits: usize) -> usize
    requires { at + length (end_line refusal bits) ≤ length out.old }
    ensures { TextPut out.old out.new at result (end_line refusal bits) }
{
    let first = put_text(out, at, b"end ");
    let word = put_decimal(out, first, u64::from(refusal));
    let second = put_text(out, word, b" bits ");
    let newline = put_decimal(out, second, bits as u64);
    put_byte(out, newline, b'\n')
}

// Lays what is printed of a reading at the start of `out`.
pub fn put_report(out: &mut [u8], samples: &[i32], refusal: u32, bits: usize) -> usize
    requires { 12 * length samples.now + length (end_line refusal bits) ≤ length out.old }
    ensures { TextPut out.old out.new 0 result (report samples.now refusal bits) }
{
    let last = put_lines(out, 0, samples);
    put_end(out, last, refusal, bits)
}
