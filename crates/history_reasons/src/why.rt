//! Why an entry isn't legal.

ghost use Rattle.policy_tree.specs.Meaning.{meaning_of};
ghost use Rattle.policy_eval.specs.Obligations.{MeetsHandlerObligations};
ghost use Rattle.round_model.specs.Fits.{Fits};
ghost use Rattle.round_judge.specs.Past.{IsPastOf, OfEach};
ghost use Rattle.history_reasons.specs.Judging.{HasHistory, Judges, StartsAt};
ghost use Rattle.history_reasons.specs.Rules.{rules_of};

use crate::attempts::why_not_attempt;
use crate::placing::{why_not_enter, why_not_wake};
use crate::reason::Reason;
use crate::rounds::why_no_round;
use crate::units::why_not_work;
use policy_tree::Policy;
use round_judge::Past;
use round_model::attempt::Attempt;
use round_model::{Entry, Plan};
use sched_base::Pos;

/// Why the entry isn't legal after each history that the past stands for, if there is a reason. `start` is the position
/// just after the last Round, and 0 before the first. It takes no memory.
pub fn why_not(
    policy: &Policy,
    plan: &Plan,
    past: &Past,
    start: Pos,
    entry: &Entry,
) -> Option<Reason>
    requires fits { Fits (meaning_of policy.now) plan.now }
    requires handlers { MeetsHandlerObligations (meaning_of policy.now) }
    requires past { IsPastOf (meaning_of policy.now) plan.now past.now }
    requires history { HasHistory plan.now past.now }
    requires start { StartsAt past.now start }
    ensures { OfEach (meaning_of policy.now) plan.now past.now (λ history.
        Judges (meaning_of policy.now) plan.now history entry.now (rules_of entry.now) result) }
{
    match *entry {
        Entry::Round { number } => why_no_round(plan, past, number),
        Entry::Enter {
            thread,
            by,
            at,
            reads,
        } => why_not_enter(policy, plan, past, start, thread, by, at, &reads),
        Entry::Wake {
            thread,
            by,
            at,
            reads,
        } => why_not_wake(policy, plan, past, start, thread, by, at, &reads),
        Entry::Work { by, did } => why_not_work(policy, plan, past, by, did),
        Entry::Steal {
            by,
            from,
            threads,
            reads,
        } => {
            let claimed = Attempt::Steal(from, threads);
            why_not_attempt(policy, plan, past, start, by, &reads, claimed)
        }
        Entry::Fail { by, from, reads } => {
            why_not_attempt(policy, plan, past, start, by, &reads, Attempt::Fail(from))
        }
        Entry::Pass { by, reads } => {
            why_not_attempt(policy, plan, past, start, by, &reads, Attempt::Pass)
        }
    }
}
