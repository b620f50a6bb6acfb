// The mathematics that every layer cites, without structs: specs and their proofs only.
#![tactic(auto)]
