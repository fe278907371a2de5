// Document 02 §9: an archive holds packed recordings in blocks of 512 bytes. specs/ has the bytes of a
// file, what is wrong with a block, and which recordings are in force; proofs/ has the laws of all of
// it. The writer and the reader stand in crates of their own.

#![tactic(auto)]
