// Races, cover and arrangements over any order: definitions in specs/ and theorems in proofs/. No code.
#![tactic(auto)]
