//! Why a thread may not enter or wake.

ghost use Rattle.std.specs.Prelude.{◌<◌, ℕ};
ghost use Rattle.policy_tree.specs.Meaning.{meaning_of};
ghost use Rattle.round_model.specs.declared.entry.Entry.TheVariants as entry;
ghost use Rattle.round_model.specs.Fits.{Fits};
ghost use Rattle.round_judge.specs.Past.{IsPastOf, OfEach};
ghost use Rattle.history_reasons.specs.Judging.{HasHistory, Judges, StartsAt};
ghost use Rattle.history_reasons.specs.Readings.{IsPlaceReason};
ghost use Rattle.history_reasons.specs.Rules.{placement_rules, rules_of};

use crate::reading::why_not_read;
use crate::reason::Reason;
use policy_tree::{PlaceRule, Policy};
use round_judge::Past;
use round_judge::glances::placed;
use round_judge::progress::{arriving, waking};
use round_model::Plan;
use sched_base::{CoreId, Pos, Reads, ThreadId};

/// Why the thread may not enter by the core, to come to the core `at`, if there is a reason. `start` is the position
/// just after the last Round.
pub(crate) fn why_not_enter(
    policy: &Policy,
    plan: &Plan,
    past: &Past,
    start: Pos,
    thread: ThreadId,
    by: CoreId,
    at: CoreId,
    reads: &Reads,
) -> Option<Reason>
    requires fits { Fits (meaning_of policy.now) plan.now }
    requires past { IsPastOf (meaning_of policy.now) plan.now past.now }
    requires history { HasHistory plan.now past.now }
    requires start { StartsAt past.now start }
    ensures { OfEach (meaning_of policy.now) plan.now past.now (λ history.
        Judges (meaning_of policy.now) plan.now history (entry.Enter thread by at reads.now)
        (rules_of (entry.Enter thread by at reads.now)) result) }
{
    if past.rounds() == 0 {
        return Some(Reason::NoneOpen);
    }
    if by >= plan.cores {
        return Some(Reason::NoCore);
    }
    let next = arriving(past, by);
    if next != Some(thread) {
        return Some(Reason::Enters(next));
    }
    why_not_place(policy, plan, past, start, by, at, reads)
}

/// Why the thread may not wake by the core, to come to the core `at`, if there is a reason. `start` is the position
/// just after the last Round.
pub(crate) fn why_not_wake(
    policy: &Policy,
    plan: &Plan,
    past: &Past,
    start: Pos,
    thread: ThreadId,
    by: CoreId,
    at: CoreId,
    reads: &Reads,
) -> Option<Reason>
    requires fits { Fits (meaning_of policy.now) plan.now }
    requires past { IsPastOf (meaning_of policy.now) plan.now past.now }
    requires history { HasHistory plan.now past.now }
    requires start { StartsAt past.now start }
    ensures { OfEach (meaning_of policy.now) plan.now past.now (λ history.
        Judges (meaning_of policy.now) plan.now history (entry.Wake thread by at reads.now)
        (rules_of (entry.Wake thread by at reads.now)) result) }
{
    if past.rounds() == 0 {
        return Some(Reason::NoneOpen);
    }
    if by >= plan.cores {
        return Some(Reason::NoCore);
    }
    if let Some(first) = arriving(past, by) {
        return Some(Reason::Enters(Some(first)));
    }
    let next = waking(past, by);
    if next != Some(thread) {
        return Some(Reason::Wakes(next));
    }
    why_not_place(policy, plan, past, start, by, at, reads)
}

/// Why the core may not place a thread there by these reads, if there is a reason.
fn why_not_place(
    policy: &Policy,
    plan: &Plan,
    past: &Past,
    start: Pos,
    by: CoreId,
    at: CoreId,
    reads: &Reads,
) -> Option<Reason>
    requires fits { Fits (meaning_of policy.now) plan.now }
    requires past { IsPastOf (meaning_of policy.now) plan.now past.now }
    requires start { StartsAt past.now start }
    requires core { by < plan.now.cores }
    ensures { (thread : ℕ) → OfEach (meaning_of policy.now) plan.now past.now (λ history.
        Judges (meaning_of policy.now) plan.now history (entry.Enter thread by at reads.now) placement_rules result) }
{
    match &policy.place {
        PlaceRule::Here => {
            let reason = why_not_read(reads, 0, start, past.entries());
            reason.or(why_not_there(at, by))
        }
        PlaceRule::Least(_) => {
            if let Some(reason) = why_not_read(reads, plan.cores, start, past.entries()) {
                return Some(reason);
            }
            why_not_there(at, placed(policy, plan, past, by, reads))
        }
    }
}

/// Why a thread may not come to the core `at`, where the policy places it on `target`.
fn why_not_there(at: CoreId, target: CoreId) -> Option<Reason>
    ensures { IsPlaceReason at target result }
{
    if at == target {
        None
    } else {
        Some(Reason::Place(target))
    }
}
