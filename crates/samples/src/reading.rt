// Implements document 01, "Reading": the refusals that come before any word, then turn after turn
// (`reading_turns`) into a lent list.
ghost use Rattle.std.specs.Prelude.{◌≡◌, Err, List, [], ◌∷◌, ◌-◌, ◌≤◌, ℤ, length};
ghost use Rattle.answers.specs.Limits.{max_payload_bytes};
ghost use Rattle.answers.specs.Numbers.{number_of};
ghost use Rattle.entropy.specs.Medians.{pair_of, zero_pair};
ghost use Rattle.word_state.specs.State.{no_bits};
ghost use Rattle.word_state.specs.View.{bits_read_of};
ghost use Rattle.samples.specs.View.{view_reading, read_words, refuse_reading, read_entry};

use crate::ReadAnswer;
use answers::Refusal;
use answers::limits::{MAX_FRAMES, MAX_PAYLOAD_BYTES};
use entropy::AdaptiveMedians;
use reading_turns::{Turn, after_run, after_sample, word_at};
use stereo_pair::stereo_pair_from_entropy;
use words::coded::Coded;

// The answer where the loop ended: what the accepted words used, left and gave. Bits that are not left's
// are right's.
fn answer(outcome: Result<(), Refusal>, at: Turn) -> ReadAnswer
    ensures { result ≡ record {
      outcome = outcome;
      bits = at.bits;
      medians = at.medians;
      written = at.written;
      bits_read = at.left_bits ∷ (at.bits - at.left_bits) ∷ [];
    } }
{
    // An array of structs goes into a literal through a variable: the borrow checker asks for it.
    let medians = at.medians;
    ReadAnswer {
        outcome,
        bits: at.bits,
        medians,
        written: at.written,
        bits_read: [at.left_bits, at.bits - at.left_bits],
    }
}

// Words into all of `out`, the first of them for the left channel. What it holds after a refused
// word stays.
fn decode_packed_samples_stereo(
    payload: &[u8],
    seeds: [AdaptiveMedians; 2],
    out: &mut [i32],
) -> ReadAnswer
    requires { length payload.now ≤ max_payload_bytes }
    ensures { view_reading result out.new
        ≡ read_words payload.now (pair_of seeds) (length out.old)
        out.old }
{
    let mut at = Turn {
        bits: 0,
        left_bits: 0,
        written: 0,
        medians: seeds,
        run_break: false,
        last_zero: false,
        last_one: false,
    };
    while at.written < out.len() {
        at = match word_at(
            payload,
            at.bits,
            at.written,
            at.medians,
            at.run_break,
            at.last_zero,
            at.last_one,
        ) {
            Ok(Coded::Run { owed, next }) => after_run(out, at, owed, next),
            Ok(
                Coded::Sample {
                    value,
                    ones_count,
                    next,
                    last_zero,
                    last_one,
                },
            ) => after_sample(
                payload, out, at, value, ones_count, next, last_zero, last_one,
            ),
            Err(refusal) => return answer(Err(refusal), at),
        };
    }
    answer(Ok(()), at)
}

// The answer of a reading that ended before any word.
fn not_read(refusal: Refusal) -> ReadAnswer
    ensures view { (list : List ℤ) → view_reading result list ≡ refuse_reading list (number_of refusal) }
    ensures outcome { result.outcome ≡ Err refusal }
    ensures bits { result.bits ≡ 0 }
    ensures medians { pair_of result.medians ≡ zero_pair }
    ensures written { result.written ≡ 0 }
    ensures totals { bits_read_of result.bits_read ≡ no_bits }
{
    ReadAnswer {
        outcome: Err(refusal),
        bits: 0,
        medians: [AdaptiveMedians::ZERO; 2],
        written: 0,
        bits_read: [0; 2],
    }
}

// The samples of `frames` frames, left then right, into `out`. Refuses with 5 over 131,072 frames
// or 4,194,304 payload bytes, with 6 where `out` has not two elements a frame, with 1, 17 or 2 what
// is wrong with the entropy payload, then with 3 or 4 what a word runs into. Only a refusal in a
// word leaves samples in `out`, those before it.
#[tactic(auto, using(crate::proofs::EntryLaws::long_frames, crate::proofs::EntryLaws::long_payload))]
pub fn decode_packed_samples_stereo_from_entropy(
    entropy: &[u8],
    payload: &[u8],
    frames: usize,
    out: &mut [i32],
) -> ReadAnswer
    ensures { view_reading result out.new
        ≡ read_entry entropy.now payload.now frames out.old }
{
    if frames > MAX_FRAMES {
        return not_read(Refusal::TooLarge);
    }
    if payload.len() > MAX_PAYLOAD_BYTES {
        return not_read(Refusal::TooLarge);
    }
    if out.len() != 2 * frames {
        return not_read(Refusal::ListLength);
    }
    match stereo_pair_from_entropy(entropy) {
        Ok(seeds) => decode_packed_samples_stereo(payload, seeds, out),
        Err(refusal) => not_read(refusal),
    }
}
