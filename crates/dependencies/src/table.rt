// The table of edges between positions.
ghost use Rattle.std.specs.Prelude.{map};
ghost use Rattle.rules.specs.Views.{plain_rule};
ghost use Rattle.dependencies.specs.Tables.{Tabulated, EdgeIs, Raised, One, EdgesFrom, EdgesOf};
ghost use Rattle.dependencies.specs.Views.{pair};

use crate::occurrence::Occurrence;
use crate::reading::{contains, occurrences_in};
use ranks::edge::Edge;
use ranks::table::{ENTRIES, POSITIONS, Table};
use rules::rule::Rule;

// The edge from the variable `from` of the body to the variable `to` of the head, if there is one. Most variables of a head stand in the body, so that is asked first.
fn edge_between(rule: &Rule, from: u8, to: u8) -> Option<Edge>
    ensures { EdgeIs (plain_rule rule.now) from to result }
{
    if !contains(&rule.body, to) && contains(&rule.head, from) {
        Some(Edge::Special)
    } else if from == to {
        Some(Edge::Normal)
    } else {
        None
    }
}

// Raises one entry to the edge: a special edge is above a normal one, and that above none. Not `max` of the derived order, which takes as long as the rest of a turn.
fn raise(table: &mut Table, from: Occurrence, to: Occurrence, edge: Option<Edge>)
    ensures { Raised (One from.position to.position edge) table.old table.new }
{
    let at = POSITIONS * from.position + to.position;
    match edge {
        Some(Edge::Special) => table[at] = edge,
        Some(_) => table[at] = table[at].or(edge),
        None => {}
    }
}

// Raises the entries for the edges from one body occurrence.
fn add_from(table: &mut Table, rule: &Rule, from: Occurrence)
    ensures { Raised (EdgesFrom (plain_rule rule.now) (pair from)) table.old table.new }
{
    for to in occurrences_in(&rule.head) {
        raise(
            table,
            from,
            to,
            edge_between(rule, from.variable, to.variable),
        );
    }
}

// Raises the entries for the edges of one rule.
fn add_rule(table: &mut Table, rule: &Rule)
    ensures { Raised (EdgesOf (plain_rule rule.now)) table.old table.new }
{
    for from in occurrences_in(&rule.body) {
        add_from(table, rule, from);
    }
}

// The table of edges between 128 positions: entry 128 × p + q is special if some edge from p to q is, else normal if there is one, else none.
pub fn edges(rules: &[Rule]) -> Table
    ensures { Tabulated (map plain_rule rules.now) result }
{
    let mut table = [None; ENTRIES];
    for rule in rules {
        add_rule(&mut table, rule);
    }
    table
}
