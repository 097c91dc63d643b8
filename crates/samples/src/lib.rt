// Heaps to try a collector on: made at random by the public calls, from a number that decides each of them.

#![tactic(auto)]

pub mod census;
pub mod chance;
pub mod making;
pub mod shape;
