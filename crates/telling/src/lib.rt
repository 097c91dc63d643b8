// What the programs of soundings print. A sounding is one line: what was asked, and what came.

#![tactic(auto)]

pub mod lent;
pub mod say;
