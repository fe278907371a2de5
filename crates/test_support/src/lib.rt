// What the programs that only test share: the numbers and lines of an open file, and what they print.

#![tactic(auto)]

pub mod lines;
pub mod numbers;
pub mod printing;
