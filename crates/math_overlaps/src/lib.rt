// The mathematics of overlap lists, without structs: specs and their proofs only.
#![tactic(auto)]
