// A whole input and what the program prints for it: definitions in specs/, laws in proofs/, and no code.

#![tactic(auto)]
