// The demands as theorems about the definitions. There is no code here.

#![tactic(auto)]
