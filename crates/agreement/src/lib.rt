// The collection at work and the plain collection of document 01 end alike. There is no code here.

#![tactic(auto)]
