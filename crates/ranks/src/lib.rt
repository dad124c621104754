// The ranks of 128 positions, from a table of the edges between them.
#![tactic(auto)]

ghost use Rattle.std.specs.Prelude.{◌≡◌, ℕ, ◌<◌, ◌==◌, if◌then◌else◌, List, slice_index_or};
ghost use Rattle.graphs.specs.declared.step.Step.{Step};
ghost use Rattle.graphs.specs.Laws.{Finite};
ghost use Rattle.ranks.specs.Edges.{edges_of};
ghost use Rattle.ranks.specs.Tables.{TableStep};
ghost use Rattle.ranks.specs.Answers.{Ranked};
ghost use Rattle.ranks.specs.declared.rank.Rank.TheVariants as rank;

use fixpoint::{Round, search};
use rank::Rank;
use std::array;
use table::{Bytes, Edges, POSITIONS};
use unsettled::Unsettled;

mod best;
pub mod edge;
pub mod rank;
pub mod table;
mod unsettled;

// What the search and the number say of a position: one that is found is infinite.
fn told(round: Round, number: u16) -> Rank
    ensures { result ≡ if round == 0 then rank.Number number else rank.Infinite }
{
    if round == 0 {
        Rank::Number(number)
    } else {
        Rank::Infinite
    }
}

// The ranks of a table of bytes.
fn ranks_of(table: &Bytes) -> [Rank; POSITIONS]
    ensures each { (p : ℕ) → p < 128 → Ranked (TableStep (edges_of table.now)) p (slice_index_or result p rank.Infinite) }
    ensures laws { (edges : List Step) → Finite edges }
{
    let (best, next) = best::best(table);
    let rounds = search(&Unsettled {
        table,
        best: &best,
        next: &next,
    });
    array::from_fn(|p| told(rounds[p], best[p]))
}

/// The rank of each position, or that it is infinite; and each place of any finite list of edges is the one or the other.
pub fn ranks<T: Edges>(table: &T) -> [Rank; POSITIONS]
    ensures each { (p : ℕ) → p < 128 → Ranked (TableStep (T.edges table.now)) p (slice_index_or result p rank.Infinite) }
    ensures laws { (edges : List Step) → Finite edges }
{
    ranks_of(&table.bytes())
}
