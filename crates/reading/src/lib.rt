// Rule lines and fact lines, read exactly.
#![tactic(auto)]

mod checks;
pub mod line;
pub mod read;
pub mod values;
