// Chains of calls at the three doors: statements in specs/, proofs in proofs/. There is no code here.
#![tactic(auto)]
