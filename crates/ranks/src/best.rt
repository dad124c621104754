// The most special edges on walks to a position, by rounds of relaxing: after k rounds those on walks of at most k steps.
ghost use Rattle.std.specs.Prelude.{◌≡◌, ℕ, ◌<◌};
ghost use Rattle.graphs.specs.Potentials.{Attained, Covers};
ghost use Rattle.ranks.specs.Edges.{edges_of};
ghost use Rattle.ranks.specs.Tables.{TableStep};
ghost use Rattle.ranks.specs.Relaxing.{Relaxes, Round, number, offered_or_zero};

use crate::table::{Bytes, POSITIONS, edge_of};
use std::array;

// A simple walk has fewer steps than there are positions.
const ROUNDS: usize = POSITIONS - 1;

// They go beside the table and not as one value with it: a round makes new numbers for the same table.
pub(crate) type Numbers = [u16; POSITIONS];

// The number that the edge from one position gives the other; 0 if there is no edge. The entries are bytes, and the number is read whether there is an edge or not: so the loop below has no branch that the table decides, which would make it several times slower.
fn offer(table: &Bytes, best: &Numbers, from: usize, to: usize) -> u32
    requires from { from < 128 }
    requires to { to < 128 }
    ensures { result ≡ offered_or_zero (edges_of table.now) best.now to from }
{
    let number = u32::from(best[from]);
    edge_of(table[POSITIONS * from + to]).map_or(0, |edge| number + edge.adds())
}

// The greatest number that an edge to the position gives it; 0 if there is none.
fn relax(table: &Bytes, best: &Numbers, to: usize) -> u32
    requires { to < 128 }
    ensures { Relaxes (edges_of table.now) best.now 128 to result }
{
    (0..POSITIONS)
        .map(|from| offer(table, best, from, to))
        .max()
        .unwrap_or(0)
}

// The number of each position after one more round.
fn round(table: &Bytes, best: &Numbers) -> Numbers
    requires { (p : ℕ) → number best.now p < 65535 }
    ensures { Round (edges_of table.now) best.now result }
{
    // It fits, as is proved; `try_from` would say it at more length.
    array::from_fn(|to| relax(table, best, to) as u16)
}

// The special edges on some walk to each position, no fewer than on any walk to it of 127 steps or less; and the numbers after one more round.
pub(crate) fn best(table: &Bytes) -> (Numbers, Numbers)
    ensures attained { Attained (TableStep (edges_of table.now)) (number result.0) }
    ensures covers { Covers (TableStep (edges_of table.now)) 127 (number result.0) }
    ensures next { Round (edges_of table.now) result.0 result.1 }
{
    let mut best = [0; POSITIONS];
    for _ in 0..ROUNDS {
        let next = round(table, &best);
        // then no further round would change anything
        if next == best {
            return (best, next);
        }
        best = next;
    }
    let next = round(table, &best);
    (best, next)
}
