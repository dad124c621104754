// A table of edges between numbered positions, and what such a table is read from.
ghost use Rattle.std.specs.Prelude.{◌≡◌, ℕ, List, Option, Some, None, map};
ghost use Rattle.ranks.specs.declared.edge.Edge as declared;
ghost use Rattle.ranks.specs.Edges.{edge_of, edges_of};

use crate::edge::Edge;
use std::array;

pub const POSITIONS: usize = 128;

pub const ENTRIES: usize = POSITIONS * POSITIONS;

// The edge from p to q, if there is one, stands at POSITIONS × p + q: one row of entries, since their numbers are the steps of a system.
pub type Table = [Option<Edge>; ENTRIES];

// In a table of bytes, the entry of an edge that is not special, and of one that is; any other byte is no edge.
pub const NORMAL: u8 = Edge::Normal as u8;

pub const SPECIAL: u8 = Edge::Special as u8;

pub type Bytes = [u8; ENTRIES];

/// What a table of edges is read from.
pub trait Edges {
    // the edges that it says
    ghost edges: { Self → List (Option declared.Edge) };

    // Its edges as bytes.
    fn bytes(&self) -> Bytes
        ensures { edges_of result ≡ edges self.now };
}

impl Edges for Bytes {
    ghost edges = { edges_of };

    fn bytes(&self) -> Bytes {
        *self
    }
}

impl Edges for Table {
    ghost edges = { λ t. t };

    fn bytes(&self) -> Bytes {
        array::from_fn(|at| byte_of(self[at]))
    }
}

// The byte of an entry.
fn byte_of(entry: Option<Edge>) -> u8
    ensures { edge_of result ≡ entry }
{
    entry.map_or(0, |edge| edge as u8)
}

// The edge that a byte says, if it says one.
pub(crate) fn edge_of(byte: u8) -> Option<Edge>
    ensures { result ≡ edge_of byte }
{
    match byte {
        NORMAL => Some(Edge::Normal),
        SPECIAL => Some(Edge::Special),
        _ => None,
    }
}
