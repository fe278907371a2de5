// Document 02, §4: pass lists joined. What two calls of decorrelation or of analysis, one for each of
// two lists, and one call with both lists have to do with each other is stated in specs/Joined.antt,
// with worked numbers in specs/Example.antt. No code is needed for that.

#![tactic(auto)]
