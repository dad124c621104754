// A word of at most eight bytes, kept by value.
ghost use Rattle.std.specs.Prelude.{◌≤◌, length};
ghost use Rattle.bounded.specs.Bounded.{items};

mod methods;

use bounded::Bounded;

// The most bytes of a word.
const MOST: usize = 8;

#[derive(Clone, Copy)]
pub struct Name {
    bytes: Bounded<u8, MOST>,
    ghost few: { length (items bytes) ≤ 8 },
}
