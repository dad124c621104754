// A new book, reading it, and withdrawing a rule.
ghost use Rattle.std.specs.Prelude.{◌≡◌, map, length, IfOk};
ghost use Rattle.naming.specs.Names.{Gets};
ghost use Rattle.book.specs.Book.{empty, Sound};
ghost use Rattle.book.specs.Changing.{Withdrawn};
ghost use Rattle.book.specs.Law.{Determined};
ghost use Rattle.book.specs.Views.{plain_entry, FindsLabel};

use super::{Book, RULES};
use naming::predicate::{Predicate, Predicates};
use questions::question::{Question, Refusal};
use rules::rule::Rule;
use std::alloc::{AllocError, Global};

impl Book {
    // No rule stands and no predicate is known.
    pub fn new(heap: Global) -> Result<Book, AllocError>
        ensures new { IfOk result (λ b. b ≡ empty) }
        ensures sound { IfOk result (λ b. ∥ Sound b ∥₁) }
    {
        let rules = Vec::with_capacity(heap, RULES)?;
        Ok(Book {
            rules,
            known: Predicates::new(),
        })
    }

    // The standing rules, in the order of adding.
    pub fn rules(&self) -> &[Rule]
        ensures entries { map plain_entry result.now ≡ self.now.entries }
        ensures sound { ∥ Sound self.now ∥₁ }
    {
        self.rules.as_slice()
    }

    // How many predicates are known.
    pub fn predicates(&self) -> usize
        ensures known { result ≡ length self.now.known }
        ensures sound { ∥ Sound self.now ∥₁ }
    {
        self.known.len()
    }

    // The known predicate of this number.
    pub fn predicate(&self, number: usize) -> Option<Predicate>
        ensures gets { Gets self.now.known number result }
        ensures sound { ∥ Sound self.now ∥₁ }
    {
        self.known.get(number)
    }

    // The number of the standing rule that carries the label.
    pub fn find(&self, label: &[u8]) -> Option<usize>
        ensures finds { FindsLabel self.now label.now result }
        ensures sound { ∥ Sound self.now ∥₁ }
    {
        self.rules().iter().position(|rule| rule.label.is(label))
    }

    // The label's rule no longer stands and later ones move down; what is known stays known. Refused if no standing rule carries the label.
    pub fn withdraw(&mut self, label: &[u8]) -> Result<(), Refusal>
        ensures withdrawn { Withdrawn self.old label.now self.new result }
        ensures determined { Determined self.old }
        ensures sound { ∥ Sound self.new ∥₁ }
    {
        let number = self.find(label).ok_or(Question::LabelStands.at(0))?;
        self.rules.remove(number);
        Ok(())
    }
}
