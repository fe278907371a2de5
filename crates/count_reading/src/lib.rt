// Implements document 01, "One word", run length and prefix: a count of ones up to a zero, and for
// a count of 2 or more a number behind it.

#![tactic(auto)]

ghost use Rattle.std.specs.Prelude.{◌≡◌, ◌≤◌, length};
ghost use Rattle.answers.specs.Limits.{max_payload_bytes};
ghost use Rattle.bits.specs.Bits.{bits_of};
ghost use Rattle.fields.specs.Counts.{counted, run_length, prefix};

use answers::Refusal;
use bit_reading::get_bits;
use unary_reading::get_unary;

// The number behind a count of ones.
fn read_counted(payload: &[u8], place: usize, ones: u32) -> Option<(u32, usize)>
    requires limit { length payload.now ≤ max_payload_bytes }
    requires count { ones ≤ 32 }
    ensures { result ≡ counted (bits_of payload.now) place ones }
{
    if ones < 2 {
        return Some((ones, place));
    }
    let (low, next) = get_bits(payload, place, ones - 1)?;
    Some(((1 << (ones - 1)) + low, next))
}

// The run length at a place. None where a bit is missing or 33 ones or more stand there.
pub fn read_zero_run_length(payload: &[u8], place: usize) -> Option<(u32, usize)>
    requires limit { length payload.now ≤ max_payload_bytes }
    ensures { result ≡ run_length (bits_of payload.now) place }
{
    let (ones, next) = get_unary(payload, place)?;
    if ones >= 33 {
        return None;
    }
    read_counted(payload, next, ones)
}

// The prefix at a place. EndOfStream at a second count of 33. Truncated where a bit is missing, the
// second count is above 33, or the value is above 4,294,967,295.
pub fn read_raw_prefix(payload: &[u8], place: usize) -> Result<(u32, usize), Refusal>
    requires limit { length payload.now ≤ max_payload_bytes }
    ensures { result ≡ prefix (bits_of payload.now) place }
{
    let (first, behind) = get_unary(payload, place).ok_or(Refusal::Truncated)?;
    if first < 16 {
        return Ok((first, behind));
    }
    let (second, digits) = get_unary(payload, behind).ok_or(Refusal::Truncated)?;
    if second == 33 {
        return Err(Refusal::EndOfStream);
    }
    if second > 33 {
        return Err(Refusal::Truncated);
    }
    let (rest, next) = read_counted(payload, digits, second).ok_or(Refusal::Truncated)?;
    let value = rest.checked_add(16).ok_or(Refusal::Truncated)?;
    Ok((value, next))
}
