// The rules as a system of positions that affect one another.
use rules::rule::Rule;

// The search over this system finds the affected positions of the rules.
#[derive(Clone, Copy)]
pub(crate) struct Positions<'a> {
    pub(crate) rules: &'a [Rule],
}
