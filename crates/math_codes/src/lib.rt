// No code: the overlap list of two rules by numbers alone, each atom the first place of the pair that holds it, and that it is the
// definition's list.
#![tactic(auto)]
