// Document 02, §3 (Q3.3): ones counted through whole bytes, beside the same counted bit by bit. For
// payloads of 0 to 20 bytes every starting bit and every place of the zero, or none, is tried. Each
// line says how many counts were made and how many agree. What is printed is held to the file
// `stdout`.

#![tactic(auto)]

ghost use Rattle.std.specs.Prelude.{◌≤◌};

mod payloads;
mod plain;

use checked_bits::checked_get_unary;
use plain::count_bit_by_bit;
use std::io;

// Whether both counts of a payload from a place on are the same.
fn agrees(payload: &[u8], at: usize) -> bool {
    checked_get_unary(payload, at) == count_bit_by_bit(payload, at)
}

// The end of a line.
fn print_tally(rt: &impl Print, made: usize, agreed: usize) -> io::Result<()> {
    println!(rt; ": {made} counts, {agreed} as bit by bit")
}

// Payloads of `length` bytes with the zero in every place, or behind them, from every bit and from
// ten places past the last one. The number of a case tells its fill, the place of its zero and its
// starting bit.
fn run_length(rt: &impl Print, length: usize) -> io::Result<()>
    requires { length ≤ 20 }
{
    let places = 8 * length + 1;
    let made = 4 * places * (places + 9);
    let mut agreed = 0usize;
    for i in 0..made {
        let at = i / 4 / places;
        let bytes = payloads::with_a_zero(i % 4, i / 4 % places, at);
        if agrees(&bytes[..length], at) {
            agreed += 1;
        }
    }
    print!(rt; "length {length}")?;
    print_tally(rt, made, agreed)
}

fn main(rt: HostRuntime) -> io::Result<()> {
    for length in 0..=20usize {
        run_length(&rt, length)?;
    }
    Ok(())
}
