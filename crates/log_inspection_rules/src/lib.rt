// What is promised of the log that `log` writes when `inspect` reads it, and of any log that it accepts. No code: the statements stand in specs/, their proofs in proofs/.
#![tactic(auto)]
