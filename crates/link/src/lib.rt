// Both ends together: demand 3 for the calls of `slave` and `master`; definitions and statements in specs/, proofs in proofs/, and no code of its own.

#![tactic(auto)]
