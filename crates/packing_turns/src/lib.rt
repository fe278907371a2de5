// Implements document 01, "Packing", a turn of its loop: a run length where one is due, and the word where
// it tells of no zeros. A turn takes and gives numbers and flags: the medians and flags of the whole state
// are locals of the loop that calls it.

#![tactic(auto)]

ghost use Rattle.std.specs.Prelude.{◌≡◌, false, not, cond, suc, ◌+◌, ◌*◌, ◌≤◌, ◌<◌, pos, length, drop, get_or};
ghost use Rattle.std.specs.Int.Signed.{mag};
ghost use Rattle.answers.specs.Limits.{residual_span, max_elements, max_word_bits};
ghost use Rattle.entropy.specs.Medians.{medians_of, zero_set, Small};
ghost use Rattle.packing.specs.View.{TurnIs};

use entropy::AdaptiveMedians;
use locating::is_ahead;
use packing::Turn;
use word_bits::Before;
use word_laying::{put_before, put_word};
use word_state::zero_run_eligible;

// last_zero and last_one after a word.
fn zero_after(last_zero: bool, more: bool) -> bool
    ensures { result ≡ cond last_zero false (not more) }
{
    !last_zero && !more
}

fn one_after(last_zero: bool, last_one: bool, more: bool) -> bool
    ensures { result ≡ cond last_zero last_one more }
{
    if last_zero { last_one } else { more }
}

// A turn that tells of zeros, and leaves the flags.
fn run_turn(before: Before, last_zero: bool, last_one: bool) -> Turn
    ensures { result
        ≡ record {
          place = before.place;
          run = before.run;
          medians = zero_set;
          last_zero = last_zero;
          last_one = last_one;
        } }
{
    Turn {
        place: before.place,
        run: before.run,
        medians: AdaptiveMedians::ZERO,
        last_zero,
        last_one,
    }
}

// A run length where one is due, and the word where it tells of no zeros, from `at` on. `due` and
// `other` are the medians of the channel due and of the other.
pub fn put_turn(
    out: &mut [u8],
    at: usize,
    residuals: &[i32],
    i: usize,
    due: AdaptiveMedians,
    other: AdaptiveMedians,
    last_zero: bool,
    last_one: bool,
    run_break: bool,
) -> Turn
    requires room { (at < 8) × (at + max_word_bits ≤ 8 * length out.old)
        × (i < length residuals.now) × (length residuals.now ≤ max_elements) }
    requires span { Small (medians_of due) × Small (medians_of other)
        × (mag (get_or residuals.now i (pos 0)) < residual_span) }
    ensures { TurnIs out.old out.new at (medians_of due) (medians_of other)
        last_zero last_one run_break
        (get_or residuals.now i (pos 0)) (drop (suc i) residuals.now) result }
{
    let asked = zero_run_eligible(due, other, run_break, last_zero, last_one);
    let before = put_before(out, at, residuals, i, asked);
    if before.run > 0 {
        return run_turn(before, last_zero, last_one);
    }
    let more = is_ahead(other, residuals, i + 1);
    let place = before.place;
    let residual = residuals[i];
    let word = put_word(out, place, residual, due, last_zero, last_one, more);
    Turn {
        place: word.place,
        run: 0,
        medians: word.medians,
        last_zero: zero_after(last_zero, more),
        last_one: one_after(last_zero, last_one, more),
    }
}
