// What an accepted log shows, of any maker's recorder. No code: the statements stand in specs/, their proofs in proofs/.
#![tactic(auto)]
