// Implements document 02 §5 (Q5.1, Q5.2): the lines of the page, one for each block of 1,024 frames
// and the last for what is left.

#![tactic(auto)]

ghost use Rattle.std.specs.Prelude.{◌≡◌, ◌++◌, ◌+◌, ◌*◌, ◌≤◌, ◌<◌, length};
ghost use Rattle.answers.specs.Limits.{max_elements};
ghost use Rattle.answers.specs.Lists.{Fitting};
ghost use Rattle.decimal.specs.Column.{column};
ghost use Rattle.decimal.specs.Decimal.{decimal};
ghost use Rattle.decimal.specs.TextPut.{TextPut};
ghost use Rattle.page_lines.specs.Page.{line_bytes, line_count, row};
ghost use Rattle.page_lines.specs.Page.{page as Page·page};

use decimal::column::put_column;
use decimal::text::put_byte;
use page_block::{Block, hear};

// Samples of a line, two for each of its 1,024 frames.
const LINE_SAMPLES: usize = 2048;

// How many lines a page of so many samples has.
pub fn line_count(elements: usize) -> usize
    requires { elements ≤ max_elements }
    ensures { result ≡ line_count elements }
{
    (elements / 2).div_ceil(1024)
}

// Lays the numbers of both stems in two columns of one width, the left one's first.
fn put_stems(page: &mut [u8], at: usize, width: usize, left: u32, right: u32) -> usize
    requires room { at + width + width ≤ length page.old }
    requires wide { (length (decimal left) ≤ width) × (length (decimal right) ≤ width) }
    ensures text { TextPut page.old page.new at result (column width left ++ column width right) }
    ensures width { result ≡ at + width + width }
{
    let second = put_column(page, at, width, left);
    put_column(page, second, width, right)
}

// Lays line k: 45 bytes.
fn put_line(page: &mut [u8], at: usize, k: usize, block: Block) -> usize
    requires room { at + line_bytes ≤ length page.old }
    requires number { k < 1000000 }
    requires few { (block.left_clicks < 100000000) × (block.right_clicks < 100000000) }
    ensures text { TextPut page.old page.new at result
        (row k block.left_peak block.right_peak block.left_clicks block.right_clicks) }
    ensures width { result ≡ at + line_bytes }
{
    let peaks = put_column(page, at, 6, k as u32);
    let clicks = put_stems(page, peaks, 11, block.left_peak, block.right_peak);
    let newline = put_stems(page, clicks, 8, block.left_clicks, block.right_clicks);
    put_byte(page, newline, b'\n')
}

// Lays all lines, each from where the one before it ended.
pub fn put_lines(samples: &[i32], threshold: u32, page: &mut [u8]) -> usize
    requires { Fitting (length samples.now) (line_bytes * line_count (length samples.now)) (length page.old) }
    ensures text { TextPut page.old page.new 0 result (Page·page threshold samples.now) }
    ensures width { result ≡ line_bytes * line_count (length samples.now) }
{
    let mut place = 0;
    let mut last = 0;
    for (k, part) in samples.chunks(LINE_SAMPLES).enumerate() {
        let block = hear(part, threshold, last);
        place = put_line(page, place, k, block);
        last = block.last_loud;
    }
    place
}
