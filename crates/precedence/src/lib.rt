// Happens-before with links that deliver in order: definitions in specs/ and theorems in proofs/. No code.
#![tactic(auto)]
