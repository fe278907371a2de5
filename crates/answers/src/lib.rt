// Implements document 01, "Why each operation says no", and the numbers that document 02 adds: one
// enum for all of them. An entry answers with a `Result`, of which the error is a `Refusal`; none refuses
// for a reason that is not listed here.

#![tactic(auto)]

ghost use Rattle.std.specs.Prelude.{◌≡◌};
ghost use Rattle.answers.specs.Numbers.{number_of, outcome_number};

pub mod limits;

// A reason to refuse. The order is that of the numbers 1 to 19.
#[derive(Clone, Copy, Debug, PartialEq, Eq)]
pub enum Refusal {
    // The entropy payload is neither 6 nor 12 bytes long.
    EntropyLength,
    // The entropy payload is mono, or holds a negative median.
    NotStereo,
    // A bit past the end is needed, or a count or a prefix value is over its cap.
    Truncated,
    // The second count of a prefix is 33.
    EndOfStream,
    // More frames, elements or bytes than the entry takes.
    TooLarge,
    // A lent list does not have the length that the entry asks for.
    ListLength,
    // A term is none of the thirteen valid ones.
    InvalidTerm,
    // A seed, A's or B's, has too few samples for its term.
    SeedTooShort,
    // More than 16 passes.
    TooManyPasses,
    // A residual lies outside the span that packing takes.
    ResidualOutOfSpan,
    // The storage lent for what is written is too short.
    OutputTooShort,
    // The channel due is neither 0 nor 1.
    InvalidChannel,
    // A sample lies outside the 16 bits of a sound file.
    SampleOutOfSpan,
    // The bytes are no sound file of the one form that is taken, or a rate is outside its span.
    NotWave,
    // A field of wide samples tells of more than 31 bits.
    FieldAbove31,
    // A wide sample is the image of no sample under the redundancy setting.
    NotReinsertable,
    // A log word is 8192 or more, or -8192 or less.
    LogWordOutOfReach,
    // A block of an archive is damaged, or not what the blocks before it ask for.
    BadBlock,
    // An archive holds two recordings of the same house, start second and issue.
    RecordingTwice,
}

// The number of a refusal, 1 to 19: by its name and no discriminant, since the numbers stay whatever the
// order of the names.
pub fn number(refusal: Refusal) -> u32
    ensures { result ≡ number_of refusal }
{
    match refusal {
        Refusal::EntropyLength => 1,
        Refusal::NotStereo => 2,
        Refusal::Truncated => 3,
        Refusal::EndOfStream => 4,
        Refusal::TooLarge => 5,
        Refusal::ListLength => 6,
        Refusal::InvalidTerm => 7,
        Refusal::SeedTooShort => 8,
        Refusal::TooManyPasses => 9,
        Refusal::ResidualOutOfSpan => 10,
        Refusal::OutputTooShort => 11,
        Refusal::InvalidChannel => 12,
        Refusal::SampleOutOfSpan => 13,
        Refusal::NotWave => 14,
        Refusal::FieldAbove31 => 15,
        Refusal::NotReinsertable => 16,
        Refusal::LogWordOutOfReach => 17,
        Refusal::BadBlock => 18,
        Refusal::RecordingTwice => 19,
    }
}

// The number of an answer: 0 where the input was accepted.
pub fn outcome_number<T>(answer: &Result<T, Refusal>) -> u32
    ensures { result ≡ outcome_number answer.now }
{
    match answer {
        Ok(_) => 0,
        Err(refusal) => number(*refusal),
    }
}
