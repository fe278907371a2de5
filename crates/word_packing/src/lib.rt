// Implements document 01, "Packing", all words. The loop holds the medians of both channels, the flags and
// the place in locals; a run is one turn, so that no debt is held: the zeros that it tells of are passed
// over. Each turn is lent the rest of the buffer from its first unfinished byte.

#![tactic(auto)]

ghost use Rattle.std.specs.Prelude.{◌≡◌, true, ◌*◌, ◌≤◌, length};
ghost use Rattle.answers.specs.Limits.{max_elements};
ghost use Rattle.entropy.specs.Medians.{pair_of, Small};
ghost use Rattle.word_bits.specs.Residuals.{spanned};
ghost use Rattle.packing.specs.View.{PackedIs};

use entropy::AdaptiveMedians;
use packing::Packed;
use packing_turns::put_turn;

// All words, from the start of the buffer on.
pub fn pack_words(residuals: &[i32], seeds: [AdaptiveMedians; 2], out: &mut [u8]) -> Packed
    requires room { (length residuals.now ≤ max_elements)
        × (14 * length residuals.now ≤ length out.old) }
    requires span { (spanned residuals.now ≡ true)
        × Small (pair_of seeds).left × Small (pair_of seeds).right }
    ensures { PackedIs out.old out.new (pair_of seeds)
        residuals.now result }
{
    let mut medians = seeds;
    let mut bits: usize = 0;
    let mut last_zero = false;
    let mut last_one = false;
    let mut run_break = false;
    let mut i: usize = 0;
    // A turn passes over as many residuals as its run has: no `for`.
    while i < residuals.len() {
        let a = bits / 8;
        let turn = put_turn(
            &mut out[a..],
            bits % 8,
            residuals,
            i,
            medians[i % 2],
            medians[1 - i % 2],
            last_zero,
            last_one,
            run_break,
        );
        bits = 8 * a + turn.place;
        last_zero = turn.last_zero;
        last_one = turn.last_one;
        run_break = turn.run > 0;
        if run_break {
            medians = [AdaptiveMedians::ZERO; 2];
            i += turn.run;
            continue;
        }
        medians[i % 2] = turn.medians;
        i += 1;
    }
    Packed { bits, medians }
}
