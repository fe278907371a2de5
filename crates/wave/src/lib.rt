// Document 02 §1: export and import of sound files belong together. Import accepts just what export
// writes, so no two files that it accepts stand for the same sound; specs/SoundFile.antt states it. No
// code is needed for that.

#![tactic(auto)]
