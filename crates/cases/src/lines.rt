// The line of a case, after its name.
use answers::{Refusal, outcome_number};
use std::io;
use test_support::printing::print_list;

// The number of the refusal that a case answered, 0 for none.
pub fn print_refusal<T>(rt: &impl Print, answer: &Result<T, Refusal>) -> io::Result<()> {
    let refusal = outcome_number(answer);
    print!(rt; " refusal {refusal}")
}

// The values of a case, to the end of its line.
pub fn print_values(rt: &impl Print, values: &[i32]) -> io::Result<()> {
    print_list(rt, values)?;
    println!(rt; "")
}
