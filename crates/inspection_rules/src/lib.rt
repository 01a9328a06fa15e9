// What is promised of the inspection of logs stands in specs/, and is proved in proofs/. There is no code here, so that a false promise is refused in seconds.
#![tactic(auto)]
