// Laws that the kit lacks: about choices, loops, tests and lists. There is no code here.

#![tactic(auto)]
