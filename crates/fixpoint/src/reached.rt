// What is found by a round.
ghost use Rattle.std.specs.Prelude.{[], ◌∷◌, Decides};
ghost use Rattle.fixpoint.specs.Least.{FoundBy};
ghost use Rattle.fixpoint.specs.Steps.{Ready};

use crate::{Round, Rounds, round_of};

/// The items that are found by the round `before`.
#[derive(Clone, Copy)]
pub struct Reached<'a> {
    pub rounds: &'a Rounds,
    pub before: Round,
}

impl Reached<'_> {
    /// Whether an item has a round from 1 to `before`, so that a step from it alone is ready.
    pub fn has(self, item: usize) -> bool
        ensures found { Decides result (FoundBy self.entry.rounds.now self.entry.before item) }
        ensures ready { Decides result (Ready self.entry.rounds.now self.entry.before (item ∷ [])) }
    {
        (1..=self.before).contains(&round_of(self.rounds, item))
    }
}
