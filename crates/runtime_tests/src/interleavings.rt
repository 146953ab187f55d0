//! Random interleavings of the turns of several cores, on one thread.

ghost use Rattle.std.specs.Prelude.{◌≤◌};
ghost use Rattle.policy_tree.specs.Meaning.{meaning_of};
ghost use Rattle.table_players.specs.Crowds.{IsTried};

use crate::dice::rolled;
use crate::finding::Finding;
use crate::rounds::{Steps, is_whole_and_legal, played};
use crate::spreads::steals_narrow;
use policy_tree::Policy;
use std::alloc::Global;
use std::sync::Wait;
use table_players::crowds::{crowd, placed_by_load, placed_here, stolen_in_batches};

/// So many interleavings are tried of each kind.
const TRIES: u32 = 1000;

/// Whether the round of so many cores, with a plan and an order by the dice, is whole and legal, and its steals narrow
/// the spread.
fn is_well_played<R: Wait>(
    rt: &R,
    alloc: Global,
    policy: &Policy,
    cores: u32,
    dice: u64,
) -> Option<bool>
    requires policy { IsTried (meaning_of policy.now) }
    requires some { 1 ≤ cores }
    requires few { cores ≤ 4 }
{
    let count = (dice >> 60) as u32 / 2 + 1;
    let Ok(plan) = crowd(alloc, cores, count, dice >> 20) else {
        return None;
    };
    let history = played(rt, alloc, policy, &plan, Steps::ByDice(dice))?;
    let whole = is_whole_and_legal(alloc, policy, &plan, &history, 1 + count + 2 * cores)?;
    Some(whole && steals_narrow(&history))
}

/// What the first of the tries finds that isn't well played.
fn all_tries<R: Wait>(rt: &R, alloc: Global, policy: &Policy, cores: u32) -> Option<Finding>
    requires policy { IsTried (meaning_of policy.now) }
    requires some { 1 ≤ cores }
    requires few { cores ≤ 4 }
{
    let mut dice = 2026;
    for turn in 0..TRIES {
        dice = rolled(dice);
        if !is_well_played(rt, alloc, policy, cores, dice)? {
            return Some(Finding::NotIn(
                "the round is whole and legal, and its steals narrow the spread",
                turn,
            ));
        }
    }
    Some(Finding::Expected)
}

/// The tries of three cores, and those of four.
fn three_and_four<R: Wait>(rt: &R, alloc: Global, policy: &Policy) -> Option<Finding>
    requires { IsTried (meaning_of policy.now) }
{
    let three = all_tries(rt, alloc, policy, 3)?;
    let four = all_tries(rt, alloc, policy, 4)?;
    Some(three.and(four))
}

/// Threads stay on the core that lets them in.
pub(crate) fn stay_where_they_enter<R: Wait>(rt: &R, alloc: Global) -> Option<Finding> {
    let Ok(policy) = placed_here(alloc) else {
        return None;
    };
    three_and_four(rt, alloc, &policy)
}

/// Threads go to the core with the least load.
pub(crate) fn go_to_the_least_load<R: Wait>(rt: &R, alloc: Global) -> Option<Finding> {
    let Ok(policy) = placed_by_load(alloc) else {
        return None;
    };
    three_and_four(rt, alloc, &policy)
}

/// Threads stay on the core that lets them in, and are stolen several at once.
pub(crate) fn are_stolen_in_batches<R: Wait>(rt: &R, alloc: Global) -> Option<Finding> {
    let Ok(policy) = stolen_in_batches(alloc) else {
        return None;
    };
    three_and_four(rt, alloc, &policy)
}
