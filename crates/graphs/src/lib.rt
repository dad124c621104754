// Walks along steps between numbered places, closed walks and ranks: definitions and laws over any relation of steps.
#![tactic(auto)]

pub mod step;
