// What is promised of a log's text over both commands. No code: the statement stands in specs/, its proof in proofs/.
#![tactic(auto)]
