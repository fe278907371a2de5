// Implements document 02, §8, as theorems over the definitions of two entries: one word and reading. What a
// history of accepted words is stands in specs/History.antt, what is shown of it in specs/Stems.antt. No code
// is needed for that.

#![tactic(auto)]
