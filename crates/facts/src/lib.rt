// What the audit's yes means as facts about words, and what a store holds, seen by its pointers. There is no code here.

#![tactic(auto)]
