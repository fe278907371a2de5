// Document 01, "Proved cases (*) and others": the starred cases, as a table over the definitions.
// The table is `starred` in specs/Starred.antt; that every row of it holds is `starred-hold` in
// proofs/StarredHold.antt. No code is needed for that.

#![tactic(auto)]
