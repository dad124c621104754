// What rules mean: positions, edges, marks, affected positions, the seven classes and their witnesses. Definitions and laws.
#![tactic(auto)]

pub mod class;
