//! Why a core may not run a unit so.

ghost use Rattle.policy_tree.specs.Meaning.{meaning_of};
ghost use Rattle.policy_eval.specs.Obligations.{MeetsHandlerObligations};
ghost use Rattle.round_model.specs.declared.entry.Entry.TheVariants as entry;
ghost use Rattle.round_model.specs.Fits.{Fits};
ghost use Rattle.round_judge.specs.Past.{IsPastOf, OfEach};
ghost use Rattle.history_reasons.specs.Judging.{HasHistory, Judges};
ghost use Rattle.history_reasons.specs.Rules.{rules_of};

use crate::reason::Reason;
use policy_tree::Policy;
use round_judge::Past;
use round_judge::progress::{arriving, waking};
use round_judge::unit::next_unit;
use round_model::{Did, Plan};
use sched_base::CoreId;

/// Why the core may not run its unit, or why that isn't what comes of it, if there is a reason.
pub(crate) fn why_not_work(
    policy: &Policy,
    plan: &Plan,
    past: &Past,
    by: CoreId,
    did: Did,
) -> Option<Reason>
    requires fits { Fits (meaning_of policy.now) plan.now }
    requires handlers { MeetsHandlerObligations (meaning_of policy.now) }
    requires past { IsPastOf (meaning_of policy.now) plan.now past.now }
    requires history { HasHistory plan.now past.now }
    ensures { OfEach (meaning_of policy.now) plan.now past.now (λ history.
        Judges (meaning_of policy.now) plan.now history (entry.Work by did) (rules_of (entry.Work by did)) result) }
{
    if past.rounds() == 0 {
        return Some(Reason::NoneOpen);
    }
    if by >= plan.cores {
        return Some(Reason::NoCore);
    }
    if let Some(next) = arriving(past, by) {
        return Some(Reason::Enters(Some(next)));
    }
    if let Some(next) = waking(past, by) {
        return Some(Reason::Wakes(Some(next)));
    }
    if past.turn(by).worked {
        return Some(Reason::HasWorked);
    }
    let told = next_unit(policy, plan, past, by).did();
    if told == Some(did) {
        None
    } else {
        Some(Reason::Unit(told))
    }
}
