// Truth values, bounded quantifiers, and whole arrays as tables: definitions in specs/, laws in proofs/.
#![tactic(auto)]
