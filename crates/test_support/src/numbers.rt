// The numbers of an open file, one after another: one, two or four bytes each, the low one first; a
// signed one by its pattern. A number that the file does not hold whole is 0.
//
// What is compared with a list is read to the list's end, so that the next number is that of the
// next thing stored, whatever was found.
use inputs::read_full;
use little_endian::{number, short_number, signed_word};
use std::io::Read;

// A kind of number that a file holds.
pub trait Stored: Copy + PartialEq {
    // The next number of this kind.
    fn read_from<R: Read>(file: &mut R) -> Self;
}

impl Stored for u8 {
    fn read_from<R: Read>(file: &mut R) -> u8 {
        let mut bytes = [0u8; 1];
        read_full(file, &mut bytes);
        bytes[0]
    }
}

impl Stored for i16 {
    fn read_from<R: Read>(file: &mut R) -> i16 {
        let low = u8::read_from(file);
        let high = u8::read_from(file);
        signed_word(low, high)
    }
}

impl Stored for u32 {
    fn read_from<R: Read>(file: &mut R) -> u32 {
        next_number(file).unwrap_or(0)
    }
}

impl Stored for i32 {
    fn read_from<R: Read>(file: &mut R) -> i32 {
        u32::read_from(file).cast_signed()
    }
}

// The next number of four bytes, if the file does not end before it.
pub fn next_number<R: Read>(file: &mut R) -> Option<u32> {
    let mut bytes = [0u8; 4];
    if read_full(file, &mut bytes) < 4 {
        return None;
    }
    Some(number(bytes[0], bytes[1], bytes[2], bytes[3]))
}

// The next number of two bytes, as a size.
pub fn read_size<R: Read>(file: &mut R) -> usize {
    let low = u8::read_from(file);
    let high = u8::read_from(file);
    short_number(low, high) as usize
}

// Fills a list with the next numbers.
pub fn load<T: Stored, R: Read>(file: &mut R, list: &mut [T]) {
    for number in list.iter_mut() {
        *number = T::read_from(file);
    }
}

// Reads this many signed numbers of two bytes to the start of a list, as many as it has room for.
pub fn load_words<R: Read>(file: &mut R, list: &mut [i32], count: usize) {
    for number in list.iter_mut().take(count) {
        *number = i32::from(i16::read_from(file));
    }
}

// Reads this many bytes to the start of a list. False where the list or the file has fewer.
pub fn fill<R: Read>(file: &mut R, bytes: &mut [u8], count: usize) -> bool {
    match bytes.get_mut(..count) {
        Some(part) => read_full(file, part) == count,
        None => false,
    }
}

// Whether the next numbers are those of a list.
pub fn holds<T: Stored, R: Read>(file: &mut R, list: &[T]) -> bool {
    let mut same = true;
    for number in list {
        same &= T::read_from(file) == *number;
    }
    same
}

// The first elements of a list, all of them where it has fewer.
pub fn part<T>(list: &[T], count: usize) -> &[T] {
    list.get(..count).unwrap_or(list)
}
