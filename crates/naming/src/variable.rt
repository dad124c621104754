// The variables of a rule line, by number: each by the word where it first occurs.
ghost use Rattle.std.specs.Prelude.{◌≤◌, length};
ghost use Rattle.bounded.specs.Bounded.{items};

use bounded::Bounded;

mod methods;

// Two sides of four atoms with four words each.
const MOST: usize = 32;

#[derive(Drop)]
pub struct Variables<'a> {
    texts: Bounded<&'a [u8], MOST>,
    ghost few: { length (items texts) ≤ 32 },
}
