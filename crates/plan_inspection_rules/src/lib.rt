// What is promised of `inspect PLAN`, from the bytes of the plan sheet and of the log to what is printed; no code.
#![tactic(auto)]
