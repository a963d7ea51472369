// The round trip between writer and reader: statements in specs/, proofs in proofs/, and no code of its own.

#![tactic(auto)]
