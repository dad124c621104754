// The occurrences of variables in a side.
ghost use Rattle.std.specs.Prelude.{◌≡◌, option_map, Decides};
ghost use Rattle.std.specs.Iterator.{YieldsFirstBy, item_count};
ghost use Rattle.theory.specs.Rules.{In};
ghost use Rattle.rules.specs.Views.{plain_side};
ghost use Rattle.theory.specs.Occurrences.{occurrence_of};
ghost use Rattle.dependencies.specs.Views.{pair};
ghost use Rattle.dependencies.specs.Occurring.{occurrences_of, rest};

use crate::occurrence::Occurrence;
use rules::rule::Side;
use std::ops::Range;

// The most columns of an atom, and the most occurrences in a side: it has at most four atoms.
const COLUMNS: usize = 4;

pub const MOST: usize = 4 * COLUMNS;

// Occurrence `n` of a side: column `n % 4` of atom `n / 4`.
pub fn occurrence(side: &Side, n: usize) -> Option<Occurrence>
    ensures { option_map pair result ≡ occurrence_of (plain_side side.now) n }
{
    let atom = side.atoms().get(n / COLUMNS)?;
    let column = n % COLUMNS;
    let variable = *atom.variables().get(column)?;
    Some(Occurrence {
        variable,
        position: COLUMNS * usize::from(atom.predicate()) + column,
    })
}

// The occurrences in a side, by their numbers.
#[derive(Drop)]
pub struct Occurrences<'a> {
    side: &'a Side,
    numbers: Range<usize>,
}

impl Iterator for Occurrences<'_> {
    type Item = Occurrence;

    ghost next_gives = { YieldsFirstBy pair rest };

    ghost remaining = { item_count rest };

    fn next(&mut self) -> Option<Occurrence> {
        let side = self.side;
        self.numbers.find_map(|n| occurrence(side, n))
    }
}

// All occurrences in a side, in their order.
pub fn occurrences_in(side: &Side) -> Occurrences<'_>
    ensures { rest result ≡ occurrences_of (plain_side side.now) }
{
    Occurrences {
        side,
        numbers: 0..MOST,
    }
}

// Whether the variable occurs in the side.
pub fn contains(side: &Side, variable: u8) -> bool
    ensures { Decides result (In (plain_side side.now) variable) }
{
    side.atoms()
        .iter()
        .any(|atom| atom.variables().contains(&variable))
}
