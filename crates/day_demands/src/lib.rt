// A whole day over all its lists, as theorems of the definitions: statements in specs/, proofs in proofs/. There is no code here.
#![tactic(auto)]
