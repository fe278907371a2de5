// Bits of a payload as one number, the lowest first (document 01, "Reading", R3): up to eight bytes
// from a byte on, and the 64 bits at a place that a loop over words keeps in a register.

#![tactic(auto)]

pub mod load;
pub mod register;
