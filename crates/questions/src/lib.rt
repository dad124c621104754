// The questions that a call is put, and the refusal that the first no makes.
#![tactic(auto)]

ghost use Rattle.std.specs.Prelude.{◌≡◌};
ghost use Rattle.questions.specs.Questions.{number_of, layer_of};

use question::{Layer, Question, Refusal};
use std::fmt;

pub mod question;

impl Question {
    // The number under which the question is told.
    pub fn number(self) -> u8
        ensures { result ≡ number_of self }
    {
        self as u8
    }

    // The layer that puts the question.
    pub fn layer(self) -> Layer
        ensures { result ≡ layer_of self }
    {
        match self {
            Question::LineLength
            | Question::Bytes
            | Question::WordLength
            | Question::Pattern
            | Question::Counts
            | Question::Numbers => Layer::Reading,
            Question::FactsKnown | Question::Room => Layer::Store,
            Question::Sealed
            | Question::ValueCount
            | Question::BodyStored
            | Question::TriggerUnmet
            | Question::Nulls => Layer::Fill,
            Question::Unsealed
            | Question::LabelUnused
            | Question::Columns
            | Question::Predicates
            | Question::Rules
            | Question::LabelStands
            | Question::PredicateKnown
            | Question::Buffer
            | Question::Known => Layer::Book,
        }
    }

    // The refusal that a no at the place makes.
    pub fn at(self, place: usize) -> Refusal
        ensures question { result.question ≡ self }
        ensures place { result.place ≡ place }
    {
        Refusal {
            question: self,
            place,
        }
    }
}

impl fmt::Display for Refusal {
    fn fmt<W: fmt::Write>(&self, f: &mut fmt::Formatter<W>) -> fmt::Result {
        write!(f, "refused {} at {}", self.question.number(), self.place)
    }
}
