// What `morning` is told beside a recording.
ghost use Rattle.std.specs.Prelude.{◌≤◌, length};

use std::env::{Env, FillError};

// The length of the first argument, which is laid to the start of a lent list; 0 where there is none, and
// where it is longer than the list.
pub fn read_word(env: &impl Env, word: &mut [u8]) -> usize
    ensures { result ≤ length word.new }
{
    env.arg(1, word).unwrap_or(0)
}

// Whether there is an argument behind the first one.
pub fn has_more(env: &impl Env) -> bool {
    !matches!(env.arg(2, &mut []), Err(FillError::NotPresent))
}
