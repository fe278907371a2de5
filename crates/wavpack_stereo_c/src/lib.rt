// The functions that C calls, declared in include/wavpack_stereo.h. Each is one call of the function of
// that name in the library `wavpack_stereo`, and ensures the same.

#![tactic(auto)]

pub mod archives;
pub mod pack;
pub mod pages;
pub mod pass_lists;
pub mod reading;
pub mod values;
pub mod waves;
pub mod wide;
