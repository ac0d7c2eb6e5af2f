// Block trades, as theorems of the definitions: statements in specs/, proofs in proofs/. There is no code here.
#![tactic(auto)]
