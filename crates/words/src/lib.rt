// Implements document 01, "One word", where no zero is owed: the word that the one-word entry and
// the reading loop both read.

#![tactic(auto)]

pub mod coded;
