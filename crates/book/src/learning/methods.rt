// Learning the predicates of a line, atom by atom, each with the columns that its name should have.
ghost use Rattle.std.specs.Prelude.{◌+◌, ◌<◌, ◌≤◌, ◌++◌, length, take};
ghost use Rattle.patterns.specs.Tables.{written, side_of};
ghost use Rattle.naming.specs.Names.{predicates_of};
ghost use Rattle.naming.specs.Numbering.{Distinct};
ghost use Rattle.book.specs.Learning.{NewLearned, AtomLearned, Short, AllShort, LineLearned};

use super::Learning;
use naming::predicate::{Predicate, Predicates};
use patterns::atom::Atom;
use questions::question::{Question, Refusal};
use reading::line::RuleLine;
use rules::name::Name;
use tokens::token::Word;

// The most predicates of a book.
const PREDICATES: usize = 32;

// That there is room and that words are short is asked call by call, in private: how many atoms are still to come no type can say, and an atom by itself may have a long word.
impl Learning {
    // One predicate more; if 32 were known, it is one too many.
    fn learn_new(&mut self, word: Word, columns: usize)
        requires { length (predicates_of self.old.known) < 40 }
        ensures { NewLearned (take 8 word.entry.text.now) columns word.entry.place self.old self.new }
    {
        if self.known.len() == PREDICATES {
            self.extra = Some(word.place);
        }
        let name = Name::new(word.text);
        self.known.push(Predicate { name, columns }).unwrap();
    }

    fn learn_atom(&mut self, atom: &Atom) -> Result<(), Refusal>
        requires room { length (predicates_of self.old.known) < 40 }
        requires short { Short (written atom.now) }
        ensures learned { AtomLearned (written atom.now) self.old self.new result }
        ensures count { length (predicates_of self.new.known) ≤ length (predicates_of self.old.known) + 1 }
    {
        let word = atom.predicate();
        let columns = atom.words().len();
        match self.known.named(word.text) {
            Some((_, known)) if known.columns != columns => {
                return Err(Question::Columns.at(word.place));
            }
            Some(_) => {}
            None => self.learn_new(word, columns),
        }
        Ok(())
    }

    // The predicates of the whole line, body first.
    pub fn learn(known: &Predicates, rule: &RuleLine) -> Result<Learning, Refusal>
        requires few { length (predicates_of known.now) ≤ 32 }
        requires names { Distinct (predicates_of known.now) }
        requires short { AllShort (side_of rule.now.body ++ side_of rule.now.head) }
        ensures { LineLearned (predicates_of known.now) (side_of rule.now.body) (side_of rule.now.head) result }
    {
        let mut learning = Learning {
            known: *known,
            extra: None,
        };
        for atom in rule.body.atoms().iter().chain(rule.head.atoms()) {
            learning.learn_atom(atom)?;
        }
        Ok(learning)
    }
}
