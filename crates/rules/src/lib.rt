// Rules in memory: labels, and atoms, sides and rules by number.
#![tactic(auto)]

pub mod name;
pub mod rule;
