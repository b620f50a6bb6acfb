// The search for two of document 01's fields: its lines, and what they say. Specs and their proofs only.
#![tactic(auto)]
