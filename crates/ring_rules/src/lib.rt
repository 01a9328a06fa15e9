// What is proved of the rings' definitions stands in specs/ and proofs/:
// each number exactly when its line holds, what an opening, a visit and a handing in do, and that places from N on are never looked at. There is no code here.
#![tactic(auto)]
