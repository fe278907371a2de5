// One word outside a run, and the run length that goes before a word. Code and sign with a short
// prefix go in by one call of `put_gathered`; a run length and an escaped prefix are laid first.

#![tactic(auto)]

ghost use Rattle.std.specs.Prelude.{◌≡◌, cond, ◌++◌, ◌+◌, ◌-◌, ◌*◌, ◌^◌, ◌≤◌, ◌<◌, length, drop};
ghost use Rattle.std.specs.Int.Signed.{mag};
ghost use Rattle.answers.specs.Limits.{residual_span, max_elements, max_word_bits};
ghost use Rattle.bits.specs.Bits.{low, val};
ghost use Rattle.entropy.specs.Medians.{medians_of, Small};
ghost use Rattle.word_bits.specs.Word.{prefix_of};
ghost use Rattle.fields.specs.Written.{prefix_field};
ghost use Rattle.word_bits.specs.View.{PutIs, BeforeIs, WordIs};

use bit_laying::put_bits;
use entropy::AdaptiveMedians;
use field_writing::{gather_code, gather_ones, put_escaped, put_run};
use fields::Gathered;
use gathered_laying::put_gathered;
use locating::{locate, sign_bit};
use spans::magnitude;
use word_bits::{Before, Word};
use zero_runs::zeros_from;

// A count, less 1 if last_one.
fn less(count: u32, last_one: bool) -> u32
    ensures { result ≡ count - val last_one }
{
    if last_one {
        count.saturating_sub(1)
    } else {
        count
    }
}

// The value of a prefix: twice that, and the flag that tells of the next word.
fn prefix_of(count: u32, last_one: bool, more: bool) -> u32
    requires { count < residual_span }
    ensures { result ≡ prefix_of count last_one more }
{
    2 * less(count, last_one) + u32::from(more)
}

// The bits of a word behind its prefix, if it has one. The place after them.
fn put_coded(out: &mut [u8], at: usize, bare: bool, prefix: u32, coded: Gathered) -> usize
    requires room { (at ≤ 8)
        × (at + 110 ≤ 8 * length out.old)
        × (0 < coded.count)
        × (coded.count ≤ 29) }
    requires value { coded.value < 2 ^ coded.count }
    ensures { PutIs out.old out.new at
        (cond bare
        (low coded.count coded.value)
        (prefix_field prefix ++ low coded.count coded.value))
        result }
{
    let value = coded.value;
    let count = coded.count;
    if bare {
        put_gathered(out, at, value, count);
        return at + count;
    }
    if prefix < 16 {
        let word = gather_ones(prefix, coded);
        let whole = word.count;
        put_gathered(out, at, word.value, whole);
        return at + whole;
    }
    let next = put_escaped(out, at, prefix);
    put_bits(out, next, value as u32, count as u32);
    next + count
}

// A word outside a run, from `at` on. `more` tells whether a next word exists with a count above 0.
pub fn put_word(
    out: &mut [u8],
    at: usize,
    residual: i32,
    medians: AdaptiveMedians,
    last_zero: bool,
    last_one: bool,
    more: bool,
) -> Word
    requires room { (at ≤ 8) × (at + 110 ≤ 8 * length out.old) }
    requires span { Small (medians_of medians) × (mag residual < residual_span) }
    ensures { WordIs out.old out.new at (medians_of medians) residual
        last_zero last_one more result }
{
    let located = locate(medians, magnitude(residual));
    let coded = gather_code(located.code, located.last, sign_bit(residual));
    let place = put_coded(
        out,
        at,
        last_zero,
        prefix_of(located.count, last_one, more),
        coded,
    );
    Word {
        place: place,
        medians: located.medians,
    }
}

// The run length, where one is due.
pub fn put_before(out: &mut [u8], at: usize, residuals: &[i32], i: usize, due: bool) -> Before
    requires place { at < 8 }
    requires room { at + max_word_bits ≤ 8 * length out.old }
    requires index { i ≤ length residuals.now }
    requires limit { length residuals.now ≤ max_elements }
    ensures { BeforeIs out.old out.new at due
        (drop i residuals.now) result }
{
    if due {
        let run = zeros_from(residuals, i);
        let place = put_run(out, at, run as u32);
        return Before {
            place: place,
            run: run,
        };
    }
    Before { place: at, run: 0 }
}
