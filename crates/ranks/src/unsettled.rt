// The positions whose number a further round would change, and those that are reached from them.
ghost use Rattle.std.specs.Prelude.{◌≡◌, ℕ, ◌<◌, ◌%◌};
ghost use Rattle.ranks.specs.Edges.{edges_of};
ghost use Rattle.ranks.specs.Relaxing.{Tense, number, relaxed};
ghost use Rattle.ranks.specs.Tables.{source};

use crate::best::Numbers;
use crate::table::{Bytes, ENTRIES, POSITIONS, edge_of};
use fixpoint::{Reached, System};

// The items are the positions, and the steps the entries of the table.
#[derive(Clone, Copy)]
pub(crate) struct Unsettled<'a> {
    pub(crate) table: &'a Bytes,
    pub(crate) best: &'a Numbers,
    // after one more round
    pub(crate) next: &'a Numbers,
    ghost round: { (i : ℕ) → i < 128 → number next.now i ≡ relaxed (edges_of table.now) best.now i },
}

impl System for Unsettled<'_> {
    ghost size = { λ s. 128 };

    ghost first = { λ s i. Tense (edges_of s.table.now) s.best.now i };

    ghost numbered = { λ s. record { count = 16384; needs = source (edges_of s.table.now); leads = λ k. k % 128 } };

    fn items(&self) -> usize {
        POSITIONS
    }

    fn is_first(&self, i: usize) -> bool {
        i < POSITIONS && self.best[i] < self.next[i]
    }

    fn steps(&self) -> usize {
        ENTRIES
    }

    fn target(&self, s: usize) -> usize {
        s % POSITIONS
    }

    fn ready(&self, s: usize, reached: Reached<'_>) -> bool {
        // No `is_some_and`: a closure that holds `reached` promised nothing there.
        matches!(self.single(s), Some(position) if reached.has(position))
    }

    fn single(&self, s: usize) -> Option<usize> {
        let table = self.table;
        let edge = edge_of(*table.get(s)?);
        edge.map(|_| s / POSITIONS)
    }
}
