// A window of 64 bits that a loop over words keeps in a register: the bits at a place (R3), and the
// bits further on. What comes in at its top is loaded by the place before, so that no load waits for
// the word that was read.
ghost use Rattle.std.specs.Prelude.{◌+◌, ◌/◌, ◌≤◌, ◌<◌, length};
ghost use Rattle.bits.specs.Bits.{bits_of};
ghost use Rattle.bits.specs.Window.{Window};

use crate::load::eight;

// The 64 bits at `at`, moved on by `used`: the bits behind them come in from a second window, whose
// own high bits the shift is meant to lose.
pub fn moved(s: &[u8], at: usize, w: u64, used: usize) -> u64
    requires inside { at / 8 + 16 ≤ length s.now }
    requires window { Window (bits_of s.now) at 64 w }
    requires some { 0 < used }
    requires most { used ≤ 57 }
    ensures { Window (bits_of s.now) (at + used) 64 result }
{
    let ahead = eight(s, at / 8 + 8) >> (at % 8);
    (w >> used) + (ahead << (64 - used))
}

// The 64 bits at `at`.
pub fn first_window(s: &[u8], at: usize) -> u64
    requires inside { at / 8 + 16 ≤ length s.now }
    ensures { Window (bits_of s.now) at 64 result }
{
    let k = at % 8;
    let w = eight(s, at / 8);
    if k == 0 {
        return w;
    }
    moved(s, at - k, w, k)
}
