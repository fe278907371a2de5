// Cases of fields and of log words.
use crate::lines::{print_refusal, print_values};
use answers::Refusal;
use bit_reader::field_at;
use std::io;
use std::io::Read;
use test_support::lines::read_list;
use test_support::numbers::part;

// What a field of a payload answers: its value and the place after it.
fn print_field(rt: &impl Print, answer: Result<(u32, usize), Refusal>) -> io::Result<()> {
    print_refusal(rt, &answer)?;
    if let Ok((value, next)) = answer {
        print!(rt; " value {value} next {next}")?;
    }
    println!(rt; "")
}

// A field of a payload, through a reader: its place and its width, and the payload.
pub fn run_field<R: Read>(rt: &impl Print, file: &mut R) -> io::Result<()> {
    let mut field = [0u8; 2];
    read_list(file, &mut field);
    let mut payload = [0u8; 8];
    let length = read_list(file, &mut payload);
    let [place, width] = field;
    let answer = field_at(part(&payload, length), usize::from(place), u32::from(width));
    print_field(rt, answer)
}

// The two bytes of a log word, and its value.
pub fn run_log_word<R: Read>(rt: &impl Print, file: &mut R) -> io::Result<()> {
    let mut word = [0u8; 2];
    read_list(file, &mut word);
    let answer = logpack::expand_log_word(word[0], word[1]);
    print_refusal(rt, &answer)?;
    print_values(rt, &[answer.unwrap_or(0)])
}
