// What `show` prints and what `compose` makes of it again: definitions and what is promised of them; no code.
#![tactic(auto)]
