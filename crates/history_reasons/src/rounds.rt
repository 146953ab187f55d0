//! Why a round may not begin.

ghost use Rattle.std.specs.Prelude.{◌≤◌};
ghost use Rattle.sched_base.specs.declared.limits.TheConstants.{MAX_ROUNDS};
ghost use Rattle.policy_tree.specs.Meaning.{Meaning};
ghost use Rattle.round_model.specs.declared.entry.Entry.TheVariants as entry;
ghost use Rattle.round_judge.specs.Past.{OfEach};
ghost use Rattle.history_reasons.specs.Judging.{HasHistory, Judges};
ghost use Rattle.history_reasons.specs.Rules.{rules_of};

use crate::reason::Reason;
use round_judge::{Past, round_due};
use round_model::Plan;

/// Why the round of that number may not begin, if there is a reason.
pub(crate) fn why_no_round(plan: &Plan, past: &Past, number: u32) -> Option<Reason>
    requires history { HasHistory plan.now past.now }
    requires rounds { past.now.rounds ≤ MAX_ROUNDS }
    ensures { (p : Meaning) → OfEach p plan.now past.now (λ history.
        Judges p plan.now history (entry.Round number) (rules_of (entry.Round number)) result) }
{
    if !past.is_complete() {
        return Some(Reason::Waits);
    }
    if !round_due(plan, past) {
        return Some(Reason::NoneDue);
    }
    let next = past.rounds() + 1;
    if number == next {
        None
    } else {
        Some(Reason::Number(next))
    }
}
