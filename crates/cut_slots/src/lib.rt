// Document 02, §10 for callers of the C interface, who hold their passes in lists of slots: the
// statements are in specs/CutSlots.antt. No code is needed for that.

#![tactic(auto)]
