// The affected positions: the search in the system of positions.
ghost use Rattle.std.specs.Prelude.{◌*◌, map, length, Decides};
ghost use Rattle.rules.specs.Views.{plain_rule, plain_side};
ghost use Rattle.fixpoint.specs.Least.{Held};
ghost use Rattle.fixpoint.specs.Steps.{Ready, Single};
ghost use Rattle.theory.specs.Occurrences.{occurrence_of, positions_of};
ghost use Rattle.dependencies.specs.Affecting.{FirstOf, needs_of, leads_of, needs_through, FirstIn, Affections};

use crate::positions::Positions;
use crate::reading::{MOST, contains, occurrence, occurrences_in};
use fixpoint::{Reached, System, search};
use ranks::table::POSITIONS;
use rules::rule::{Rule, Side};
use std::array;

// Whether the position is a head position of an existential variable of the rule.
fn is_first_in(rule: &Rule, position: usize) -> bool
    ensures { Decides result (FirstIn (plain_rule rule.now) position) }
{
    occurrences_in(&rule.head).any(|o| o.position == position && !contains(&rule.body, o.variable))
}

// Whether all positions of the variable in the side are reached.
fn all_reached(side: &Side, variable: u8, reached: Reached<'_>) -> bool
    ensures { Decides result (Held reached.entry.rounds.now reached.entry.before (positions_of (plain_side side.now) variable)) }
{
    occurrences_in(side)
        .filter(|o| o.variable == variable)
        .all(|o| reached.has(o.position))
}

// The position of the one occurrence of the variable in the side; none if it does not occur, or twice or more.
fn only_position(side: &Side, variable: u8) -> Option<usize>
    ensures { Single (positions_of (plain_side side.now) variable) result }
{
    let mut positions = occurrences_in(side)
        .filter(|o| o.variable == variable)
        .map(|o| o.position);
    let only = positions.next()?;
    match positions.next() {
        Some(_) => None,
        None => Some(only),
    }
}

// Whether head occurrence `n` of the rule is of a frontier variable all of whose body positions are reached.
fn is_ready(rule: &Rule, n: usize, reached: Reached<'_>) -> bool
    ensures { Decides result (Ready reached.entry.rounds.now reached.entry.before (needs_through (plain_rule rule.now) (occurrence_of (plain_side rule.now.head) n))) }
{
    // No `is_some_and`, here and in `ready`: a closure that holds `reached` promised nothing there.
    let Some(o) = occurrence(&rule.head, n) else {
        return false;
    };
    contains(&rule.body, o.variable) && all_reached(&rule.body, o.variable, reached)
}

impl System for Positions<'_> {
    ghost size = { λ y. 128 };

    ghost first = { λ y p. FirstOf (map plain_rule y.rules.now) p };

    ghost numbered = { λ y. let rules = map plain_rule y.rules.now in record { count = 16 * length y.rules.now; needs = needs_of rules; leads = leads_of rules } };

    fn items(&self) -> usize {
        POSITIONS
    }

    fn is_first(&self, i: usize) -> bool {
        self.rules.iter().any(|rule| is_first_in(rule, i))
    }

    fn steps(&self) -> usize {
        MOST * self.rules.len()
    }

    // Past the items where there is no occurrence: a step that leads to none of them is never taken.
    fn target(&self, s: usize) -> usize {
        self.rules
            .get(s / MOST)
            .and_then(|rule| occurrence(&rule.head, s % MOST))
            .map_or(POSITIONS, |o| o.position)
    }

    fn ready(&self, s: usize, reached: Reached<'_>) -> bool {
        matches!(self.rules.get(s / MOST), Some(rule) if is_ready(rule, s % MOST, reached))
    }

    fn single(&self, s: usize) -> Option<usize> {
        let rule = self.rules.get(s / MOST)?;
        let o = occurrence(&rule.head, s % MOST)?;
        only_position(&rule.body, o.variable)
    }
}

// Which positions are affected.
pub fn affected(rules: &[Rule]) -> [bool; POSITIONS]
    ensures { Affections (map plain_rule rules.now) result }
{
    let rounds = search(&Positions { rules });
    array::from_fn(|p| 0 < rounds[p])
}
