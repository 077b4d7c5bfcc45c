// An index of the pool's constants: where a search would look for a constant's words. No code uses it yet: its definitions are in specs/, and what they would give is
// proved in proofs/.
#![tactic(auto)]
