// Addition-subtraction chains: definitions in specs/, theorems in proofs/, and no code. What the
// planner and the checker must agree on is owned by neither.
#![tactic(auto)]
