// The way back from a found item to a first one.
ghost use Rattle.std.specs.Prelude.{◌≡◌, ℕ, ◌<◌, ◌≤◌, [], ◌∷◌, length, take, IfSome, MatchOption, ◌≢◌, slice_index};
ghost use Rattle.fixpoint.specs.Least.{Found};
ghost use Rattle.fixpoint.specs.Steps.{Step};
ghost use Rattle.fixpoint.specs.Ways.{Way, Climbs, NoWay, Rest};

use crate::{Round, Rounds, System, round_of};

/// The item of the round `round` from which alone step `s` leads to `to`; none if it leads elsewhere, or from other items.
fn step_from<Y: System>(
    system: &Y,
    rounds: &Rounds,
    s: usize,
    to: usize,
    round: Round,
) -> Option<usize>
    ensures { s < (Y.numbered system.now).count → MatchOption result ((a : ℕ) → (Y.numbered system.now).needs s ≡ (a ∷ []) → (Y.numbered system.now).leads s ≡ to → slice_index rounds.now a ≢ round) (λ a. ((Y.numbered system.now).needs s ≡ (a ∷ [])) × ((Y.numbered system.now).leads s ≡ to) × (slice_index rounds.now a ≡ round)) }
{
    if system.target(s) != to {
        return None;
    }
    system
        .single(s)
        .filter(|item| round_of(rounds, *item) == round)
}

/// An item of the round `round` from which alone a step leads to `to`.
fn step_back<Y: System>(system: &Y, rounds: &Rounds, to: usize, round: Round) -> Option<usize>
    ensures { MatchOption result ((a : ℕ) → Step (Y.numbered system.now) (a ∷ []) to → slice_index rounds.now a ≢ round) (λ a. Step (Y.numbered system.now) (a ∷ []) to × (slice_index rounds.now a ≡ round)) }
{
    // With `find_map` the goal on the closure did not close.
    for s in 0..system.steps() {
        if let Some(item) = step_from(system, rounds, s, to, round) {
            return Some(item);
        }
    }
    None
}

/// Writes a way from a first item to `goal` into the front of `out`, one item of each round, and answers how many they are. None, with nothing written, if the goal is not found, if there is no room, or if it is found only by a step from several items.
// Each call is for another item, one round earlier, so calls nest at most 1,024 deep. The buffer is lent, and what lies behind the answer stays.
pub fn way_back<Y: System>(
    system: &Y,
    rounds: &Rounds,
    goal: usize,
    out: &mut [u16],
) -> Option<usize>
    ensures many { IfSome result (λ n. (n ≡ slice_index rounds.now goal) × (n ≤ length out.old)) }
    ensures way { Found (Y.size system.now) (Y.first system.now) (Step (Y.numbered system.now)) rounds.now → MatchOption result (NoWay (Y.size system.now) (Y.first system.now) (Step (Y.numbered system.now)) rounds.now goal (length out.old)) (λ n. Way (Y.size system.now) (Y.first system.now) (Step (Y.numbered system.now)) goal (take n out.new) × Climbs rounds.now (take n out.new)) }
    ensures rest { Rest out.old out.new result }
{
    let round = round_of(rounds, goal);
    if round == 0 || out.len() < round as usize {
        return None;
    }
    if 1 < round {
        let before = step_back(system, rounds, goal, round - 1)?;
        way_back(system, rounds, before, out)?;
    }
    // It fits, as is proved; `try_from` would say it at more length.
    out[round as usize - 1] = goal as u16;
    Some(round as usize)
}
