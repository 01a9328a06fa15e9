// What a call on a lent ring does stands in specs/, and is proved in proofs/ of what the same call by value gives. There is no code here; `host` has it.
#![tactic(auto)]
