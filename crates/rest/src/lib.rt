// How long the agent works by itself: the bound in specs/, its proof in proofs/, and no code.

#![tactic(auto)]
