// What is promised of reading and writing sheets stands in specs/, and is proved in proofs/ of the sheets' own definitions. There is no code here.
#![tactic(auto)]
