// Places in order of arrival, as laws of the definitions: statements in specs/, proofs in proofs/. There is no code here.
#![tactic(auto)]
