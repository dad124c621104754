// The predicates of a book, by number.
ghost use Rattle.std.specs.Prelude.{◌≤◌, length};
ghost use Rattle.bounded.specs.Bounded.{items};

use bounded::Bounded;
use rules::name::Name;

mod methods;

// 32 that a book knows, and eight more of a line that is being asked about.
const MOST: usize = 40;

#[derive(Clone, Copy)]
pub struct Predicate {
    pub name: Name,
    pub columns: usize,
}

#[derive(Clone, Copy)]
pub struct Predicates {
    list: Bounded<Predicate, MOST>,
    ghost few: { length (items list) ≤ 40 },
}
