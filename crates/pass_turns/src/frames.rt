// The two elements of a frame, read from the buffer and stored into it.
ghost use Rattle.std.specs.Prelude.{◌≡◌, ◌+◌, ◌<◌, length};
ghost use Rattle.pass_turns.specs.Turns.{frame_at, frame_stored};

// What stands in a frame.
#[derive(Clone, Copy)]
pub struct Frame {
    pub a: i32,
    pub b: i32,
}

// The frame whose first element is i.
pub fn frame_at(buffer: &[i32], i: usize) -> Frame
    requires { i + 1 < length buffer.now }
    ensures { result ≡ frame_at buffer.now i }
{
    Frame {
        a: buffer[i],
        b: buffer[i + 1],
    }
}

// Stores that frame.
pub fn store_frame(buffer: &mut [i32], i: usize, a: i32, b: i32)
    requires { i + 1 < length buffer.old }
    ensures { buffer.new ≡ frame_stored buffer.old i a b }
{
    buffer[i] = a;
    buffer[i + 1] = b;
}
