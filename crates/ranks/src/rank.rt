// What is said of a position.
use std::fmt;

// The most special edges on walks that end there, or that there is no most. No `Option`: that there is no most is an answer, not the lack of one, and prints itself.
#[derive(Clone, Copy, Debug, PartialEq, Eq)]
pub enum Rank {
    Number(u16),
    Infinite,
}

impl fmt::Display for Rank {
    fn fmt<W: fmt::Write>(&self, f: &mut fmt::Formatter<W>) -> fmt::Result {
        match self {
            Rank::Number(number) => write!(f, "rank {number}"),
            Rank::Infinite => f.write_str("infinite"),
        }
    }
}
