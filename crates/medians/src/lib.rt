// Implements document 01, "One word": the interval that the medians give to a count, and their
// adaptation after it. Numbers are worked out in 64 bits, where nothing wraps; what document 01
// wraps or holds at 32 bits is then cut once.

#![tactic(auto)]

pub mod adaptation;
pub mod interval;
