// Signed digit strings: definitions in specs/, theorems in proofs/, and no code. Crates with code
// cite both, so that an edit of code does not check the theory again.
#![tactic(auto)]
