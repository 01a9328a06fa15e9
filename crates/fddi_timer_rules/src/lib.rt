// What FDDI's timers and late counts keep, visit by visit, stands in specs/ over plain numbers, and is proved in proofs/. There is no code here.
#![tactic(auto)]
