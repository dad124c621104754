// Atoms, sides and rules by number. What every rule that exists has is in these types.
ghost use Rattle.std.specs.Prelude.{◌<◌, ◌≤◌, length};
ghost use Rattle.bounded.specs.Bounded.{items};

use crate::name::Name;
use bounded::Bounded;

mod methods;

// The most atoms of a side, and the most variables of an atom.
const MOST: usize = 4;

// A predicate's number, and the numbers of the variables in its columns.
#[derive(Clone, Copy)]
pub struct Atom {
    predicate: u8,
    columns: Bounded<u8, MOST>,
    ghost known: { predicate < 32 },
    ghost some: { 0 < length (items columns) },
    ghost few: { length (items columns) ≤ 4 },
}

// The body or the head of a rule.
#[derive(Clone, Copy)]
pub struct Side {
    atoms: Bounded<Atom, MOST>,
    ghost some: { 0 < length (items atoms) },
    ghost few: { length (items atoms) ≤ 4 },
}

// Whenever the body holds, so does the head, for some values of the variables that only the head has.
#[derive(Clone, Copy)]
pub struct Rule {
    pub label: Name,
    pub body: Side,
    pub head: Side,
}
