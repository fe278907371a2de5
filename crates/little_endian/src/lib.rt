// Numbers in bytes, the low byte first: those of a sound file, and the log words of an entropy
// payload. Every number and every byte is taken.

#![tactic(auto)]

ghost use Rattle.std.specs.Prelude.{◌≡◌, ◌+◌, ◌≤◌, [], ◌∷◌, length};
ghost use Rattle.overlay.specs.Overlay.{overlay};
ghost use Rattle.little_endian.specs.LittleEndian.{little_endian, from_little_endian, signed_word, signed_bytes};

use overlay::lay;

// The four bytes of a number.
pub fn number_bytes(number: u32) -> [u8; 4]
    ensures { result ≡ little_endian 4 number }
{
    number.to_le_bytes()
}

// Lays a number in four bytes from a place on.
pub fn lay_number(number: u32, at: usize, out: &mut [u8])
    requires { at + 4 ≤ length out.old }
    ensures { out.new ≡ overlay out.old at (little_endian 4 number) }
{
    lay(&number_bytes(number), at, out);
}

// The number that four bytes hold.
pub fn number(a: u8, b: u8, c: u8, d: u8) -> u32
    ensures { result ≡ from_little_endian (a ∷ b ∷ c ∷ d ∷ []) }
{
    u32::from_le_bytes([a, b, c, d])
}

// The number that two bytes hold.
pub fn short_number(lo: u8, hi: u8) -> u32
    ensures { result ≡ from_little_endian (lo ∷ hi ∷ []) }
{
    u32::from(u16::from_le_bytes([lo, hi]))
}

// The signed word that two bytes hold.
pub fn signed_word(lo: u8, hi: u8) -> i16
    ensures { result ≡ signed_word lo hi }
{
    i16::from_le_bytes([lo, hi])
}

// The two bytes of a signed word.
pub fn signed_bytes(word: i16) -> [u8; 2]
    ensures { result ≡ signed_bytes word }
{
    word.to_le_bytes()
}
