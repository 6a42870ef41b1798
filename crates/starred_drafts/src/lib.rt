// Only definitions and laws: the starred drafts of 01 as one table (T11).
#![tactic(auto)]
