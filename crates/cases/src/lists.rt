// Cases of pass lists. The line of a call has the buffer after it.
use crate::lines::{print_refusal, print_values};
use decorrelation::decorrelate_array;
use pass_slots::run_slots;
use passes::{DecorrPass, Direction};
use std::io;
use std::io::Read;
use test_support::lines::read_list;

// The pass of which a list of passes that are all alike is made.
pub fn some_pass() -> DecorrPass {
    DecorrPass {
        term: 17,
        delta: 2,
        weight_a: 256,
        weight_b: -256,
        history_a: [0; 8],
        history_b: [0; 8],
    }
}

// Decorrelation of two frames by passes that are all alike: how many, and the buffer.
pub fn run_many<R: Read>(rt: &impl Print, file: &mut R) -> io::Result<()> {
    let mut count = [0u8; 1];
    read_list(file, &mut count);
    let mut buffer = [0i32; 4];
    read_list(file, &mut buffer);
    let passes = [some_pass(); 16];
    let answer = decorrelate_array(passes, usize::from(count[0]), &mut buffer);
    print_refusal(rt, &answer)?;
    print_values(rt, &buffer)
}

// The states of passes of 20 slots, a line each: the weights of A and B, then their histories. By slots and
// no chunks, since the last one may be cut off and then has no end of line.
fn print_states(rt: &impl Print, passes: &[i32]) -> io::Result<()> {
    for (i, slot) in passes.iter().enumerate() {
        if i % 20 == 2 {
            print!(rt; "  pass state")?;
        }
        if i % 20 >= 2 {
            print!(rt; " {slot}")?;
        }
        if i % 20 == 19 {
            println!(rt; "")?;
        }
    }
    Ok(())
}

// Decorrelation or analysis by passes of 20 slots each: the line of the call, and below it a line for
// each pass with its state after it.
fn run(
    rt: &impl Print,
    direction: Direction,
    passes: &mut [i32],
    buffer: &mut [i32],
) -> io::Result<()> {
    print_refusal(rt, &run_slots(direction, passes, buffer))?;
    print_values(rt, buffer)?;
    print_states(rt, passes)
}

// The same of up to three passes over up to eight numbers.
pub fn run_list<R: Read>(rt: &impl Print, direction: Direction, file: &mut R) -> io::Result<()> {
    let mut passes = [0i32; 60];
    let slots = read_list(file, &mut passes);
    let mut buffer = [0i32; 8];
    let length = read_list(file, &mut buffer);
    run(rt, direction, &mut passes[..slots], &mut buffer[..length])
}
