// Level one of a word with a reading on either side (R-5), what those above need to know of it, and no code: where the characters of its base and of either reading stand
// (specs/Standing.antt), and that a part of a J that is set is set, with its left reading (specs/Parts.antt). It relies on `word`.
#![tactic(auto)]
