// What a rule makes of a slip: the right side with the filling put in. Specs and their proofs only.
#![tactic(auto)]
