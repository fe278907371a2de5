// Signed numbers: their magnitude, their distance from 0, and whether all numbers of a list lie in a
// span. Every number of the list is looked at, without an early end, which the machine does several
// at once.

#![tactic(auto)]

ghost use Rattle.std.specs.Prelude.{◌≡◌, ◌≤◌, nat_abs, length};
ghost use Rattle.std.specs.Int.Signed.{mag};
ghost use Rattle.answers.specs.Limits.{max_elements};
ghost use Rattle.spans.specs.Spans.{within, excess_of};

// The magnitude of a number v: v, or -v - 1 where it is negative.
pub fn magnitude(number: i32) -> u32
    ensures { result ≡ mag number }
{
    if number < 0 {
        return (-1 - number) as u32;
    }
    number as u32
}

// How far a number is from 0. That of the smallest number is one more than any magnitude.
pub fn distance(number: i32) -> u32
    ensures { result ≡ nat_abs number }
{
    number.unsigned_abs()
}

// 1 for a number outside the span, 0 for any other.
fn excess(number: i32, span: u32) -> u32
    ensures { result ≡ excess_of span number }
{
    u32::from(magnitude(number) >= span)
}

// Whether the magnitude of every number of the list lies below the span.
pub fn is_within(list: &[i32], span: u32) -> bool
    requires { length list.now ≤ max_elements }
    ensures { result ≡ within span list.now }
{
    let mut outside: u32 = 0;
    for number in list {
        outside += excess(*number, span);
    }
    outside == 0
}
