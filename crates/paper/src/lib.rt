// Document 01 held against the definitions and contracts: its points, worked cases and numbers, how tight the promises are, and that the layers fit. Statements in specs/, proofs in proofs/, no code.

#![tactic(auto)]
