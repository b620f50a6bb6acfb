// Facts on lists and tables that the kit does not have: specs only.
#![tactic(auto)]
