// The one search: what follows in a system of steps, the round in which each item is found, ways back and an order.
#![tactic(auto)]

ghost use Rattle.std.specs.Prelude.{◌≡◌, ℕ, ◌<◌, ◌≤◌, List, Decides, slice_index};
ghost use Rattle.fixpoint.specs.Least.{Found, Determined};
ghost use Rattle.fixpoint.specs.Growing.{Begun, Grown};
ghost use Rattle.fixpoint.specs.Steps.{Numbered, Step, Ready, Single};
ghost use Rattle.fixpoint.specs.Ways.{Ordered, Grounded};

mod order;
mod reached;
mod way;

pub use order::in_order;
pub use reached::Reached;
pub use way::way_back;

/// The number of a round: 1 for the first items.
pub type Round = u64;

/// The round of each item. What is not found has 0 and not `None`: in the definitions too a round is a number, and 0 lies outside.
pub type Rounds = [Round; 1024];

/// Items, of which some are first, and numbered steps, each from one or more items to one.
pub trait System {
    // how many items there are
    ghost size: { Self → ℕ };

    // the item is there from the start
    ghost first: { Self → ℕ → Type 0 };

    // the steps: how many there are, what each waits for and where it leads
    ghost numbered: { Self → Numbered };

    // The number of items: at most as many as a table has places.
    fn items(&self) -> usize
        ensures is { result ≡ size self.now }
        ensures few { result ≤ 1024 };

    // Whether an item is there from the start.
    fn is_first(&self, i: usize) -> bool
        ensures { i < size self.now → Decides result (first self.now i) };

    // The number of steps.
    fn steps(&self) -> usize
        ensures { result ≡ (numbered self.now).count };

    // Where a step leads; past the items if to none of them. No `Option`: a step to no item is never taken, and asks for no case of its own.
    fn target(&self, s: usize) -> usize
        ensures { s < (numbered self.now).count → result ≡ (numbered self.now).leads s };

    // Whether all that a step waits for is reached.
    fn ready(&self, s: usize, reached: Reached<'_>) -> bool
        ensures { s < (numbered self.now).count → Decides result (Ready reached.entry.rounds.now reached.entry.before ((numbered self.now).needs s)) };

    // The one item that a step waits for; none if it waits for none or several.
    fn single(&self, s: usize) -> Option<usize>
        ensures { s < (numbered self.now).count → Single ((numbered self.now).needs s) result };
}

/// The round of an item; 0 if it has no place in the table.
fn round_of(rounds: &Rounds, item: usize) -> Round
    ensures { result ≡ slice_index rounds.now item }
{
    rounds.get(item).copied().unwrap_or(0)
}

/// The table before any step: a first item has round 1.
// A loop, since with `array::from_fn` the goal on the generic closure did not close.
fn begin<Y: System>(system: &Y) -> Rounds
    ensures { Begun (Y.size system.now) (Y.first system.now) result }
{
    let mut rounds = [0; 1024];
    for item in 0..system.items() {
        if system.is_first(item) {
            rounds[item] = 1;
        }
    }
    rounds
}

/// Looks at each step once: an item that follows from those found by the round `before` is found in the next. Whether there is one.
fn grow<Y: System>(system: &Y, rounds: &mut Rounds, before: Round) -> bool
    requires { before ≤ 1025 }
    ensures { Grown (Y.size system.now) (Step (Y.numbered system.now)) rounds.old rounds.new before result }
{
    let n = system.items();
    let mut grew = false;
    for s in 0..system.steps() {
        let to = system.target(s);
        let fresh = to < n && rounds[to] == 0;
        if fresh && system.ready(s, Reached { rounds, before }) {
            rounds[to] = before + 1;
            grew = true;
        }
    }
    grew
}

/// The round in which each item is found: a step is looked at once a round, until a round finds nothing.
pub fn search<Y: System>(system: &Y) -> Rounds
    ensures found { Found (Y.size system.now) (Y.first system.now) (Step (Y.numbered system.now)) result }
    ensures determined { Determined (Y.size system.now) (Y.first system.now) (Step (Y.numbered system.now)) }
    ensures grounded { (items : List ℕ) → Ordered result items → Grounded (Y.first system.now) (Step (Y.numbered system.now)) items }
{
    let mut rounds = begin(system);
    let mut before: Round = 1;
    while grow(system, &mut rounds, before) {
        before += 1;
    }
    rounds
}
