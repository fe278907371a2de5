// Implements document 01, "Reading", a turn of its loop: the word there, read field by field, and then
// the zeros of a run, or a sample and the short words after it, as far as they go: most words are short, and
// that is what is fast. The medians are an array that is indexed by channel. A run is one turn, so that no
// debt is held.

#![tactic(auto)]

ghost use Rattle.std.specs.Prelude.{◌≡◌, ◌%◌, ◌≤◌, ◌<◌, length};
ghost use Rattle.answers.specs.Limits.{max_payload_bytes};
ghost use Rattle.word_state.specs.State.{side};
ghost use Rattle.reading_turns.specs.Zeros.{ZerosIs};
ghost use Rattle.reading_turns.specs.Turns.{WordAt, left_after, AfterRun, AfterSample};

pub mod turn;

use answers::Refusal;
use entropy::AdaptiveMedians;
use medians::adaptation::adapt;
use short_reading::read_short_words;
use short_steps::Standing;
pub use turn::Turn;
use word_state::zero_run_eligible;
use words::coded::{Coded, read_word};

// The word where the loop stands. It is given what it reads of a turn and no `Turn`: what left took is not
// asked for here.
pub fn word_at(
    payload: &[u8],
    place: usize,
    written: usize,
    medians: [AdaptiveMedians; 2],
    run_break: bool,
    last_zero: bool,
    last_one: bool,
) -> Result<Coded, Refusal>
    requires { length payload.now ≤ max_payload_bytes }
    ensures { WordAt payload.now place written medians run_break last_zero last_one result }
{
    let run = zero_run_eligible(medians[0], medians[1], run_break, last_zero, last_one);
    read_word(
        payload,
        place,
        run,
        medians[written % 2],
        last_zero,
        last_one,
    )
}

// The first zero of a run and `owed` more into `out` from `first` on, as far as `out` goes. The
// index after them.
fn put_zeros(out: &mut [i32], first: usize, owed: u32) -> usize
    requires { first < length out.old }
    ensures { ZerosIs out.old out.new first owed result }
{
    let end = out.len().min(first + owed as usize + 1);
    out[first..end].fill(0);
    end
}

// What a word took, where the left channel was due, and else 0. It does nothing else, so that the choice is
// no branch: which channel is due where a run ends is as random as a coin.
fn left_part(written: usize, took: usize) -> usize
    ensures { result ≡ side (written % 2) took 0 }
{
    if written % 2 == 0 { took } else { 0 }
}

// Left's bits after a word that ends at `next`.
fn left_bits_after(at: Turn, next: usize) -> usize
    requires on { at.bits ≤ next }
    ensures { result ≡ left_after at next }
{
    at.left_bits + left_part(at.written, next - at.bits)
}

// After a run: its zeros are written, and no run length stands before the next word.
pub fn after_run(out: &mut [i32], at: Turn, owed: u32, next: usize) -> Turn
    requires room { at.written < length out.old }
    requires on { at.bits ≤ next }
    ensures { AfterRun out.old out.new at owed next result }
{
    Turn {
        bits: next,
        left_bits: left_bits_after(at, next),
        written: put_zeros(out, at.written, owed),
        medians: [AdaptiveMedians::ZERO; 2],
        run_break: true,
        last_zero: at.last_zero,
        last_one: at.last_one,
    }
}

// After a sample: it is written, and short words after it.
pub fn after_sample(
    payload: &[u8],
    out: &mut [i32],
    at: Turn,
    value: i32,
    ones_count: u32,
    next: usize,
    zero: bool,
    one: bool,
) -> Turn
    requires limit { length payload.now ≤ max_payload_bytes }
    requires room { at.written < length out.old }
    requires on { at.bits ≤ next }
    ensures { AfterSample payload.now out.old out.new
        at value ones_count next zero one result }
{
    let written = at.written;
    let mut medians = at.medians;
    medians[written % 2] = adapt(medians[written % 2], ones_count);
    out[written] = value;
    let from = Standing {
        place: next,
        left_bits: left_bits_after(at, next),
        written: written + 1,
        left: medians[0],
        right: medians[1],
        last_zero: zero,
        last_one: one,
    };
    let to = read_short_words(payload, out, from);
    Turn {
        bits: to.place,
        left_bits: to.left_bits,
        written: to.written,
        medians: [to.left, to.right],
        run_break: false,
        last_zero: to.last_zero,
        last_one: to.last_one,
    }
}
