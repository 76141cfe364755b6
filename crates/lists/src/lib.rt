// Lists of any kind of element: definitions in specs/, theorems in proofs/, and no code.
#![tactic(auto)]
