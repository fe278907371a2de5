// Text and numbers on standard output.
use std::io;

pub fn print(rt: &impl Print, text: &[u8]) -> io::Result<()> {
    rt.write_all(text)
}

// Signed numbers one after another, a space before each.
pub fn print_list(rt: &impl Print, values: &[i32]) -> io::Result<()> {
    for value in values {
        print!(rt; " {value}")?;
    }
    Ok(())
}
