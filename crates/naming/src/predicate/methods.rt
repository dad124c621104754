// Finding a predicate by its name, and one predicate more.
ghost use Rattle.std.specs.Prelude.{◌≡◌, [], length};
ghost use Rattle.naming.specs.Names.{predicates_of, Gets, Finds, Named, Grows};

use super::{Predicate, Predicates};
use bounded::{Bounded, Full};
use rules::name::Name;

impl Predicates {
    pub fn new() -> Predicates
        ensures { predicates_of result ≡ [] }
    {
        let filler = Predicate {
            name: Name::new(b""),
            columns: 0,
        };
        Predicates {
            list: Bounded::new(filler),
        }
    }

    pub fn len(&self) -> usize
        ensures { result ≡ length (predicates_of self.now) }
    {
        self.list.len()
    }

    // The predicate of this number.
    pub fn get(&self, number: usize) -> Option<Predicate>
        ensures { Gets (predicates_of self.now) number result }
    {
        self.list.as_slice().get(number).copied()
    }

    // The number of the predicate of this name.
    pub fn find(&self, name: &[u8]) -> Option<usize>
        ensures { Finds (predicates_of self.now) name.now result }
    {
        self.list
            .as_slice()
            .iter()
            .position(|predicate| predicate.name.is(name))
    }

    // The predicate of this name, with its number.
    pub fn named(&self, name: &[u8]) -> Option<(usize, Predicate)>
        ensures { Named (predicates_of self.now) name.now result }
    {
        let number = self.find(name)?;
        let predicate = self.get(number)?;
        Some((number, predicate))
    }

    // One predicate more, unless there are 40.
    pub fn push(&mut self, predicate: Predicate) -> Result<(), Full>
        ensures { Grows self.old predicate self.new result }
    {
        self.list.push(predicate)
    }
}
