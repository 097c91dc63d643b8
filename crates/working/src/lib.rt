// The collection at work: the invariant of a run, and how it ends. There is no code here.

#![tactic(auto)]
