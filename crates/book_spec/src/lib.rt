// A maker's book: which rule a slip gets, which pairs of its rules overlap, and whether its order matters. Specs and their proofs only.
#![tactic(auto)]
