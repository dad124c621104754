// Making and reading atoms and sides.
ghost use Rattle.std.specs.Prelude.{◌≡◌};
ghost use Rattle.rules.specs.Views.{variables, atoms_of, AtomMade, SideMade};

use super::{Atom, Side};
use bounded::Bounded;

// The most predicates of a book.
const PREDICATES: u8 = 32;

impl Atom {
    // An atom of one to four variables; none if there are fewer or more, or no such predicate.
    pub fn new(predicate: u8, variables: &[u8]) -> Option<Atom>
        ensures { AtomMade predicate variables.now result }
    {
        if predicate >= PREDICATES || variables.is_empty() {
            return None;
        }
        let columns = Bounded::from_slice(0, variables).ok()?;
        Some(Atom { predicate, columns })
    }

    pub fn predicate(&self) -> u8
        ensures { result ≡ self.now.predicate }
    {
        self.predicate
    }

    // The variables in its columns.
    pub fn variables(&self) -> &[u8]
        ensures { result.now ≡ variables self.now }
    {
        self.columns.as_slice()
    }
}

impl Side {
    // One to four atoms; none if there are fewer or more.
    pub fn new(atoms: &[Atom]) -> Option<Side>
        ensures { SideMade atoms.now result }
    {
        let first = atoms.first()?;
        let atoms = Bounded::from_slice(*first, atoms).ok()?;
        Some(Side { atoms })
    }

    pub fn atoms(&self) -> &[Atom]
        ensures { result.now ≡ atoms_of self.now }
    {
        self.atoms.as_slice()
    }
}
