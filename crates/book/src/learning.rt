// The predicates that a rule line would leave known.
use naming::predicate::Predicates;

mod methods;

#[derive(Clone, Copy)]
pub struct Learning {
    pub known: Predicates,
    // the place of the predicate that would be the 33rd
    pub extra: Option<usize>,
}
