// Theorems over the rules, in proofs/, and the definitions that only they need, in specs/. There is no code here.
#![tactic(auto)]
