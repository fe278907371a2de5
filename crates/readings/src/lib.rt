// Implements document 01, "Reading", as a definition: `reading` in specs/Reading.antt, why it is refused in
// specs/Refused.antt, and what its loops keep true in specs/Standing.antt. The laws of words and readings are
// in proofs. No code is needed for that.

#![tactic(auto)]
