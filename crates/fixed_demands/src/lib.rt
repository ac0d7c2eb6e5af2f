// What is proved of fixed-price trading and of a move over all lists: statements in specs/, proofs in proofs/. There is no code here.
#![tactic(auto)]
