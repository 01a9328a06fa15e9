// The ★ cases of the build definition stand in specs/ as one table, and are proved there of the rules. There is no code here.
#![tactic(auto)]
