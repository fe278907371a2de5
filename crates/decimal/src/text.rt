// Bytes and texts as they are.
ghost use Rattle.std.specs.Prelude.{[], ◌∷◌, ◌+◌, ◌≤◌, ◌<◌, length};
ghost use Rattle.decimal.specs.TextPut.{TextPut};

// Lays one byte.
pub fn put_byte(out: &mut [u8], at: usize, byte: u8) -> usize
    requires { at < length out.old }
    ensures { TextPut out.old out.new at result (byte ∷ []) }
{
    out[at] = byte;
    at + 1
}

// Lays a text, byte by byte.
pub fn put_text(out: &mut [u8], at: usize, text: &[u8]) -> usize
    requires { at + length text.now ≤ length out.old }
    ensures { TextPut out.old out.new at result text.now }
{
    let mut place = at;
    for byte in text {
        place = put_byte(out, place, *byte);
    }
    place
}
