// Demand 3 over lists: definitions and statements in specs/, proofs in proofs/, and no code of its own.

#![tactic(auto)]
