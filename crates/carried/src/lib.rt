// Shifts carried over: what holds of calls with saves and restores among them. Definitions in specs/, theorems in proofs/, and no code.

#![tactic(auto)]
