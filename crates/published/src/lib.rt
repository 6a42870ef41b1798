// Definitions and laws alone: the published decision on dependency graphs.
#![tactic(auto)]
