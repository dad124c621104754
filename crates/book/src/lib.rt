// A book of rules: adding a rule line and withdrawing a rule.
#![tactic(auto)]

pub mod book;
mod learning;
