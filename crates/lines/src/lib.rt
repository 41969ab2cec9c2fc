// The text of a design image, one frame a line: what reading and writing it is, and that they undo each other; no code.
#![tactic(auto)]
