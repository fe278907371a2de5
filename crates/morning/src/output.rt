// What `morning` writes to standard output beside a page.
use answers::{Refusal, number};
use std::{fmt, io};

// Why there is no page of a recording.
#[derive(Drop)]
struct Reason(Refusal);

// The wording of a refusal that a recording can meet: of 1 its own, since 12 entropy bytes are always cut
// off, of any other as include/refusals.txt has it.
impl fmt::Display for Reason {
    fn fmt<W: fmt::Write>(&self, f: &mut fmt::Formatter<W>) -> fmt::Result {
        f.write_str(match self.0 {
            Refusal::EntropyLength => {
                "the input is shorter than 16 bytes: 12 entropy bytes and a 4-byte frame count"
            }
            Refusal::NotStereo =>
                "the entropy payload is mono (6 bytes) or holds a negative median",
            Refusal::Truncated => {
                "a bit past the end is needed, or a count or a prefix value is over its cap"
            }
            Refusal::EndOfStream => "end of stream: the second count of a prefix is 33",
            Refusal::LogWordOutOfReach => "a log word outside -8,191 to 8,191",
            _ => {
                "over 131,072 frames, 262,144 elements, 4,194,304 payload bytes or 524,332 bytes of a sound file"
            }
        })
    }
}

pub fn print(rt: &impl Print, text: &[u8]) -> io::Result<()> {
    rt.write_all(text)
}

// The line that says why there is no page.
pub fn print_refusal(rt: &impl Print, refusal: Refusal) -> io::Result<()> {
    let number = number(refusal);
    let reason = Reason(refusal);
    println!(rt; "refused, {number}: {reason}")
}
