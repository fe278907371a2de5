// The kinds of cases, each named by a letter.
use crate::{lists, payloads, values};
use passes::Direction;
use std::io;
use std::io::Read;

// What a case runs.
#[derive(Clone, Copy)]
pub enum Kind {
    Entropy,
    Reading,
    Packing,
    Trip,
    Field,
    LogWord,
    ManyPasses,
    Passes(Direction),
}

// A letter that names no kind.
#[derive(Clone, Copy)]
pub struct NoKind;

impl TryFrom<u8> for Kind {
    type Error = NoKind;

    fn try_from(letter: u8) -> Result<Kind, NoKind> {
        match letter {
            b'e' => Ok(Kind::Entropy),
            b'r' => Ok(Kind::Reading),
            b'p' => Ok(Kind::Packing),
            b't' => Ok(Kind::Trip),
            b'f' => Ok(Kind::Field),
            b'l' => Ok(Kind::LogWord),
            b'm' => Ok(Kind::ManyPasses),
            b'd' => Ok(Kind::Passes(Direction::Decorrelation)),
            b'a' => Ok(Kind::Passes(Direction::Analysis)),
            _ => Err(NoKind),
        }
    }
}

impl Kind {
    // Runs the case of this kind that comes next in the file.
    pub fn run<R: Read>(self, rt: &impl Print, file: &mut R) -> io::Result<()> {
        match self {
            Kind::Entropy => payloads::run_entropy(rt, file),
            Kind::Reading => payloads::run_reading(rt, file),
            Kind::Packing => payloads::run_packing(rt, file),
            Kind::Trip => payloads::run_trip(rt, file),
            Kind::Field => values::run_field(rt, file),
            Kind::LogWord => values::run_log_word(rt, file),
            Kind::ManyPasses => lists::run_many(rt, file),
            Kind::Passes(direction) => lists::run_list(rt, direction, file),
        }
    }
}
