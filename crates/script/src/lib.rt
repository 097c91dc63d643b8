// Lines of a reader taken apart into tokens, what tokens spell, a hash, and output gathered in a lent buffer: what a program that replays a script
// needs besides the calls that it replays.

#![tactic(auto)]

pub mod filling;
pub mod hash;
pub mod lines;
pub mod lists;
pub mod numbers;
pub mod output;
pub mod tokens;
