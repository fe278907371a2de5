// Implements document 02 §5 (Q5.3, Q5.4): the peaks and clicks of both stems in a block of frames, found
// in one walk without a branch on a sample, which the machine does several at once. What is counted of
// the left stem stands in the low half of a number and what is counted of the right one in the high
// half, so that one operation serves both.

#![tactic(auto)]

ghost use Rattle.std.specs.Prelude.{◌≡◌, ◌+◌, ◌*◌, ◌/◌, ◌%◌, ◌≤◌, length};
ghost use Rattle.page_block.specs.Heard.{Flags, Heard};
ghost use Rattle.page_block.specs.Heard.{exceeds as Heard·exceeds};

use spans::distance;

// What one of the right stem counts.
const RIGHT: u32 = 65536;

// What is found in a block of frames; `last_loud` has 1 for each stem whose last sample exceeds the
// threshold, which the next block goes on from.
#[derive(Clone, Copy)]
pub struct Block {
    pub left_peak: u32,
    pub right_peak: u32,
    pub left_clicks: u32,
    pub right_clicks: u32,
    pub last_loud: u32,
}

// 1 where a number exceeds another, 0 else.
fn exceeds(number: u32, other: u32) -> u32
    ensures { result ≡ Heard·exceeds number other }
{
    u32::from(other < number)
}

// 1 for each stem whose distance exceeds the threshold.
fn flags(left: u32, right: u32, threshold: u32) -> u32
    ensures { result ≡ Heard·exceeds left threshold + 65536 * Heard·exceeds right threshold }
{
    exceeds(left, threshold) + RIGHT * exceeds(right, threshold)
}

// 1 for each stem that exceeds the threshold and did not before.
fn rises(next: u32, last: u32) -> u32
    requires { Flags next × Flags last }
    ensures { result ≡ Heard·exceeds (next % 65536) (last % 65536)
        + 65536 * Heard·exceeds (next / 65536) (last / 65536) }
{
    next & !last
}

// Finds the peaks and clicks of at most 1,024 frames; `before` has 1 for each stem whose sample before
// them exceeds the threshold.
pub fn hear(samples: &[i32], threshold: u32, before: u32) -> Block
    requires few { length samples.now ≤ 2048 }
    requires before { Flags before }
    ensures { Heard threshold before samples.now result }
{
    let mut left_peak: u32 = 0;
    let mut right_peak: u32 = 0;
    let mut clicks: u32 = 0;
    let mut last = before;
    for i in 0..samples.len() / 2 {
        let left = distance(samples[2 * i]);
        let right = distance(samples[2 * i + 1]);
        left_peak = left_peak.max(left);
        right_peak = right_peak.max(right);
        let next = flags(left, right, threshold);
        clicks += rises(next, last);
        last = next;
    }
    Block {
        left_peak,
        right_peak,
        left_clicks: clicks % RIGHT,
        right_clicks: clicks / RIGHT,
        last_loud: last,
    }
}
