// The kinds of stored answers: each holds the answer of a function to a record, whose number is the
// input where that is a word or a byte.
use crate::pack_records::packing_agrees;
use crate::pass_records::{making_agrees, passes_agree};
use crate::word_records::{reading_agrees, word_agrees};
use inputs::read_full;
use little_endian::signed_word;
use std::io::Read;
use test_support::numbers::{Stored, holds, part};

// What a file holds.
#[derive(Clone, Copy)]
pub enum Kind {
    LogWords,
    TermBytes,
    WeightBytes,
    Entropy,
    Words,
    Readings,
    PassMaking,
    Passes,
    Packings,
}

// Whether the function of a kind answers as a record holds, whose first number is read.
pub fn agrees<R: Read>(kind: Kind, first: u32, file: &mut R, number: u32) -> bool {
    match kind {
        Kind::LogWords => log_word_agrees(first, file, number),
        Kind::TermBytes => term_byte_agrees(first, file, number),
        Kind::WeightBytes => weight_byte_agrees(first, number),
        Kind::Entropy => entropy_agrees(first, file),
        Kind::Words => word_agrees(first, file),
        Kind::Readings => reading_agrees(first, file),
        Kind::PassMaking => making_agrees(first, file),
        Kind::Passes => passes_agree(first, file),
        Kind::Packings => packing_agrees(first, file),
    }
}

// The log word with this 16-bit pattern.
fn log_word(number: u32) -> i16 {
    signed_word((number % 256) as u8, (number / 256 % 256) as u8)
}

// A number whose pattern this is.
fn signed(number: u32) -> i32 {
    wrapping::narrow(i64::from(number))
}

// A log word's refusal and value.
fn log_word_agrees<R: Read>(refusal: u32, file: &mut R, number: u32) -> bool {
    let mut value = [0i32; 1];
    let answered = wavpack_stereo::wv_log_word(log_word(number), &mut value);
    (answered == refusal) & (value[0] == i32::read_from(file))
}

// A term byte's term and delta.
fn term_byte_agrees<R: Read>(term: u32, file: &mut R, number: u32) -> bool {
    let mut out = [0i32; 2];
    let refusal = wavpack_stereo::wv_term_byte((number % 256) as u8, &mut out);
    (refusal == 0) & (out[0] == signed(term)) & (out[1] == i32::read_from(file))
}

// A weight byte's weight.
fn weight_byte_agrees(weight: u32, number: u32) -> bool {
    let mut out = [0i32; 1];
    let refusal = wavpack_stereo::wv_weight_byte((number % 256) as u8, &mut out);
    (refusal == 0) & (out[0] == signed(weight))
}

// An entropy payload's refusal and medians.
fn entropy_agrees<R: Read>(length: u32, file: &mut R) -> bool {
    let refusal = u32::read_from(file);
    let mut payload = [0u8; 16];
    read_full(file, &mut payload);
    let mut medians = [0i32; 6];
    let answered = wavpack_stereo::wv_entropy(part(&payload, length as usize), &mut medians);
    (answered == refusal) & holds(file, &medians)
}
