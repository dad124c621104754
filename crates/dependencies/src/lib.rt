// The edges and the affected positions of a list of rules.
#![tactic(auto)]

mod affecting;
mod occurrence;
mod positions;
mod reading;
mod table;

pub use affecting::affected;
pub use table::edges;
