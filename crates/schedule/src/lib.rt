// Goals that take ticks: tests, sums and maxima over the goals of a clause, and the heaviest chain of an order. Definitions in specs/, laws in proofs/.
#![tactic(auto)]
