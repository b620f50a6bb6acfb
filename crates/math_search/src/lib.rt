// The mathematics of the search for one field pair, without structs: specs and their proofs only.
#![tactic(auto)]
