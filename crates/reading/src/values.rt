// The values of a fact, at most four.
use bounded::Bounded;

mod numbers;

pub type Values = Bounded<u16, 4>;
