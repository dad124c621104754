// The seven classes of rule sets. They stand in a file of their own, since specs/ cites them.

#[derive(Clone, Copy, Debug, PartialEq, Eq)]
pub enum Class {
    // One body atom in each rule.
    Linear,
    // A body atom of each rule contains all its body variables.
    Guarded,
    // A body atom of each rule contains all its body variables that stand at affected positions only.
    WeaklyGuarded,
    // No closed walk along edges between predicates.
    Acyclic,
    // No closed walk with a special edge, along edges between positions.
    WeaklyAcyclic,
    // No marked variable occurs twice or more in its body.
    Sticky,
    // Each marked variable that occurs twice or more in its body stands there at a position that is not infinite.
    WeaklySticky,
}
