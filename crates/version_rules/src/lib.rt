// What is promised of plan versions stands in specs/, and is proved in proofs/ of the store's own definitions. There is no code here.
#![tactic(auto)]
