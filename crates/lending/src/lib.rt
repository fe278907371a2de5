// What a walk of code by hand knows of a slice that is lent on for a call and comes back, or is given
// up for good (proofs/Lending.antt), and of the first elements of an array, lent as a slice
// (proofs/Front.antt). The elements are of any type. No code is needed for that.

#![tactic(auto)]
