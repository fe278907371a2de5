// Document 02 §9: what the writer and the reader of an archive come to together. specs/Archived.antt states
// it over the definitions of the two entries. No code is needed for that.

#![tactic(auto)]
