// The names in rules: predicates and variables by number, and the rule that a rule line means.
#![tactic(auto)]

pub mod numbering;
pub mod predicate;
mod variable;
