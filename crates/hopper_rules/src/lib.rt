// What is promised of the hopper set. No code.
#![tactic(auto)]
