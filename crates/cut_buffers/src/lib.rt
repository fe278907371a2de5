// Document 02, §10: cutting on eights. When a buffer that is decorrelated or analysed part by part comes
// to the same as in one call is stated in specs/Cut.antt, with worked numbers in specs/Example.antt. No
// code is needed for that.

#![tactic(auto)]
