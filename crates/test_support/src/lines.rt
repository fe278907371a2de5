// Cases as lines of text in an open file: a word, a name with a colon after it, and lists of numbers
// in decimal. A space comes before each number, and a semicolon or the line's end after a list.
ghost use Rattle.std.specs.Prelude.{◌≤◌, length};

use crate::numbers::Stored;
use crate::printing::print;
use std::io;
use std::io::Read;

// A number without its sign, whether it is negative, and whether it ends a list.
#[derive(Clone, Copy)]
pub struct Entry {
    size: u32,
    negative: bool,
    last: bool,
}

impl From<Entry> for u8 {
    fn from(entry: Entry) -> u8 {
        (entry.size % 256) as u8
    }
}

// The number as its size and its sign say.
impl From<Entry> for i32 {
    fn from(entry: Entry) -> i32 {
        let value = entry.size.cast_signed();
        if entry.negative {
            value.wrapping_neg()
        } else {
            value
        }
    }
}

// The first letter of the next line's word, which is read to the space after it; 0 where the file
// ends. A zero byte ends the cases too, so this is no `Option`. No word has more than 20 letters.
pub fn read_kind<R: Read>(file: &mut R) -> u8 {
    let kind = u8::read_from(file);
    for _ in 0..20u32 {
        if u8::read_from(file) == b' ' {
            break;
        }
    }
    kind
}

// Prints the name of a case, and the colon after it. No name has more than 80 letters.
pub fn print_name<R: Read>(rt: &impl Print, file: &mut R) -> io::Result<()> {
    for _ in 0..80u32 {
        let byte = u8::read_from(file);
        print(rt, &[byte])?;
        if byte == b':' {
            break;
        }
    }
    Ok(())
}

// The next number of a list, after the space before it: a sign or none, and up to nine digits.
fn read_entry<R: Read>(file: &mut R) -> Entry {
    let mut byte = u8::read_from(file);
    let negative = byte == b'-';
    if negative {
        byte = u8::read_from(file);
    }
    let mut size: u32 = 0;
    for _ in 0..9u32 {
        if !byte.is_ascii_digit() {
            break;
        }
        size = size % 100000000 * 10 + u32::from(byte - b'0');
        byte = u8::read_from(file);
    }
    Entry {
        size,
        negative,
        last: byte != b' ',
    }
}

// Reads a list of numbers to the start of another, and answers how many there are.
pub fn read_list<T: Copy + From<Entry>, R: Read>(file: &mut R, list: &mut [T]) -> usize
    ensures { result ≤ length list.new }
{
    let mut last = u8::read_from(file) != b' ';
    for (i, place) in list.iter_mut().enumerate() {
        if last {
            return i;
        }
        let entry = read_entry(file);
        *place = T::from(entry);
        last = entry.last;
    }
    list.len()
}
