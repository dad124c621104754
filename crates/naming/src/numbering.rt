// The rule that the two sides of a rule line mean: predicates by their numbers in a book, variables by first occurrence.
ghost use Rattle.std.specs.Prelude.{◌<◌, ◌≤◌, map, length, MatchResult};
ghost use Rattle.bounded.specs.Bounded.{items};
ghost use Rattle.patterns.specs.Tables.{word_of, written, side_of};
ghost use Rattle.naming.specs.Names.{predicates_of, names_of};
ghost use Rattle.naming.specs.Numbering.{PredicateNumber, WordsNumbered, AtomNumbered, SideNumbered, RuleNumbered};

use crate::predicate::Predicates;
use crate::variable::Variables;
use bounded::{Bounded, Full};
use patterns::atom::{Atom as WrittenAtom, Side as WrittenSide};
use reading::line::RuleLine;
use rules::name::Name;
use rules::rule::{Atom, Rule, Side};
use tokens::token::Word;

// The most atoms of a side, and the most variables of an atom.
const MOST: usize = 4;

fn predicate_number(atom: &WrittenAtom, known: &Predicates) -> Option<usize>
    ensures { PredicateNumber (predicates_of known.now) (written atom.now) result }
{
    let (number, predicate) = known.named(atom.predicate().text)?;
    (predicate.columns == atom.words().len()).then_some(number)
}

// The variables that the words of an atom name.
fn number_words<'a>(
    words: &[Word<'a>],
    variables: &mut Variables<'a>,
) -> Result<Bounded<u8, MOST>, Full>
    ensures { MatchResult result (λ n. WordsNumbered (map word_of words.now) (names_of variables.old) (names_of variables.new) (items n)) (λ _. length words.now ≤ 4 → 28 < length (names_of variables.old)) }
{
    let mut numbers = Bounded::new(0);
    for word in words {
        numbers.push(variables.number(word.text)?)?;
    }
    Ok(numbers)
}

fn number_atom<'a>(
    atom: &WrittenAtom<'a>,
    known: &Predicates,
    variables: &mut Variables<'a>,
) -> Option<Atom>
    ensures { AtomNumbered (predicates_of known.now) (written atom.now) (names_of variables.old) (names_of variables.new) result }
{
    let predicate = predicate_number(atom, known)?;
    let numbers = number_words(atom.words(), variables).ok()?;
    // It fits, as is proved; `try_from` would say it at more length.
    Atom::new(predicate as u8, numbers.as_slice())
}

fn number_side<'a>(
    side: &WrittenSide<'a>,
    known: &Predicates,
    variables: &mut Variables<'a>,
) -> Option<Side>
    ensures { SideNumbered (predicates_of known.now) (side_of side.now) (names_of variables.old) (names_of variables.new) result }
{
    // It lies in the unused places only. To fill them with the first atom of the side would take a case of its own.
    let filler = Atom::new(0, &[0])?;
    let mut atoms = Bounded::<Atom, MOST>::new(filler);
    for atom in side.atoms() {
        atoms.push(number_atom(atom, known, variables)?).ok()?;
    }
    Side::new(atoms.as_slice())
}

// The rule that the line means among these predicates. There is one whenever each side has an atom, each atom a word, and each predicate is known with its columns.
pub fn number_rule(rule: &RuleLine, known: &Predicates) -> Option<Rule>
    ensures { RuleNumbered (predicates_of known.now) rule.now.label.text.now (side_of rule.now.body) (side_of rule.now.head) result }
{
    let mut variables = Variables::new();
    let body = number_side(&rule.body, known, &mut variables)?;
    let head = number_side(&rule.head, known, &mut variables)?;
    let label = Name::new(rule.label.text);
    Some(Rule { label, body, head })
}
