// Text in lent storage: bytes, numbers in decimal, and numbers right-aligned in columns. Each writer
// begins at a place and answers the place behind what it laid, so that the next one goes on there. No struct
// holds buffer and place: it would have to promise in each clause that its buffer is still the lent one.

#![tactic(auto)]

pub mod column;
pub mod number;
pub mod text;
