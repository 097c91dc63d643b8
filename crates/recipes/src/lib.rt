// Heaps made by the calls from short recipes, and lines of text cut into their parts.

#![tactic(auto)]

pub mod cutting;
pub mod heaps;
