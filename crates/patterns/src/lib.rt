// The patterns of rule lines and fact lines, and the reader that follows them.
#![tactic(auto)]

pub mod atom;
pub mod reader;
pub mod state;
