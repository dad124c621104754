// Adding a rule line: its questions in their order, and what it would make of the book.
ghost use Rattle.book.specs.Book.{Sound};
ghost use Rattle.book.specs.Changing.{Added};
ghost use Rattle.book.specs.Law.{Determined, Decided};
ghost use Rattle.book.specs.Books.{LabelAsked, Prepared};

use super::{Book, RULES};
use crate::learning::Learning;
use naming::numbering::number_rule;
use naming::predicate::Predicates;
use questions::question::{Question, Refusal};
use reading::line::RuleLine;
use reading::read::read_rule;
use rules::rule::Rule;

impl Book {
    fn check_label(&self, rule: &RuleLine) -> Result<(), Refusal>
        ensures { LabelAsked self.now rule.now result }
    {
        if self.find(rule.label.text).is_some() {
            return Err(Question::LabelUnused.at(rule.label.place));
        }
        Ok(())
    }

    // The line's rule by number, and the predicates that would be known. The book is left as it is, so that a refusal alters nothing.
    fn prepare(&self, line: &[u8]) -> Result<(Rule, Predicates), Refusal>
        ensures { Prepared self.now line.now result }
    {
        let written = read_rule(line)?;
        self.check_label(&written)?;
        let learning = Learning::learn(&self.known, &written)?;
        if let Some(place) = learning.extra {
            return Err(Question::Predicates.at(place));
        }
        if self.rules.len() >= RULES {
            return Err(Question::Rules.at(0));
        }
        let rule = number_rule(&written, &learning.known).unwrap();
        Ok((rule, learning.known))
    }

    // The line's rule stands last and its predicates become known; or the first question that answers no turns it away, and nothing changes.
    pub fn add(&mut self, line: &[u8]) -> Result<(), Refusal>
        ensures added { Added self.old line.now self.new result }
        ensures determined { Determined self.old }
        ensures decided { Decided self.old line.now }
        ensures sound { ∥ Sound self.new ∥₁ }
    {
        let (rule, known) = self.prepare(line)?;
        self.known = known;
        self.rules.push_reserved(rule);
        Ok(())
    }
}
