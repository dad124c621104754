// What is said of the edge from one position to another.
ghost use Rattle.std.specs.Prelude.{◌≡◌};
ghost use Rattle.ranks.specs.Edges.{adds};

// A special edge counts on a walk, a normal one does not. Their numbers are their bytes in a table of bytes.
#[derive(Clone, Copy, Debug, PartialEq, Eq, PartialOrd, Ord, Hash)]
pub enum Edge {
    Normal = 1,
    Special = 2,
}

impl Edge {
    /// What the edge adds to the special edges on a walk.
    pub fn adds(self) -> u32
        ensures { result ≡ adds self }
    {
        match self {
            Edge::Normal => 0,
            Edge::Special => 1,
        }
    }
}
