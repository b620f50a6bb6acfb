// No code: proofs/ has what the proofs that walk the code by hand share.
#![tactic(auto)]
