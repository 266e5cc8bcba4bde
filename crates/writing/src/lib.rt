// Writing into a lent buffer: a definition in specs/, its laws in proofs/, and no code.
// Buffer and place stay two parameters: of a struct that holds both, Wrote would speak of self.old.out.now, self.new.out.now, self.old.at
// and self.new.at where it now names out.old, out.new, at and result.

#![tactic(auto)]
