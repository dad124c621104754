// The book. Its memory is taken when it comes into being, so that no later call can fail for memory.
use naming::predicate::Predicates;
use rules::rule::Rule;
use std::marker::Model;

mod adding;
mod methods;

// The most rules that stand.
const RULES: usize = 64;

#[derive(Drop)]
pub struct Book {
    rules: Vec<Rule>,
    known: Predicates,
}

// Clauses see the standing rules under their labels and the known predicates, by number.
impl Model for Book {
    ghost use Rattle.std.specs.Prelude.{◌≤◌, vec_capacity};
    ghost use Rattle.book.specs.Book.{Book as Plain, Sound};
    ghost use Rattle.book.specs.Views.{book_of};

    ghost Value = { Plain };

    ghost view = { λ b. book_of b.rules.items b.known };

    ghost invariant = { λ b. (64 ≤ vec_capacity b.rules) × ∥ Sound (book_of b.rules.items b.known) ∥₁ };
}
