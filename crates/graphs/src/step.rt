// A step of a walk, and of a witness.

// The kind is a number and no enum, since steps to be checked come from outside with any number there. What `from` and `to` number depends on it: positions, predicates, marks, atoms or variables.
#[derive(Clone, Copy, Debug, PartialEq, Eq)]
pub struct Step {
    pub kind: u16,
    pub rule: u16,
    pub from: u16,
    pub to: u16,
}
