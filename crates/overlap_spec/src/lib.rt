// The text of overlap lines, which variables a line binds, and that the bytes of a list determine its lines. Specs and their proofs only.
#![tactic(auto)]
