// What every run of calls on an opened ring keeps stands in specs/, and is proved in proofs/ of the rings' own definitions. There is no code here.
#![tactic(auto)]
