// What is promised of the log that `log` writes, over the plan that was opened and the model's runs. No code: the statements stand in specs/, their proofs in proofs/.
#![tactic(auto)]
