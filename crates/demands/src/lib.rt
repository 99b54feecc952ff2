// The demands, as theorems over what the crates below promise: see specs/Demands.antt, and proofs/ for their proofs. There is no code here.

#![tactic(auto)]
