//! Why a core may not make an attempt so.

ghost use Rattle.std.specs.Prelude.{◌≡◌, IsTrue, ◌↔◌};
ghost use Rattle.policy_tree.specs.Meaning.{meaning_of};
ghost use Rattle.policy_eval.specs.Obligations.{MeetsHandlerObligations};
ghost use Rattle.round_model.specs.Fits.{Fits};
ghost use Rattle.round_model.specs.Outcomes.{entry_of_attempt};
ghost use Rattle.round_judge.specs.Past.{IsPastOf, OfEach};
ghost use Rattle.history_reasons.specs.Judging.{HasHistory, Judges, StartsAt};
ghost use Rattle.history_reasons.specs.Attempts.{IsOtherReason, core_of, takes as takes_threads, threads_of};
ghost use Rattle.history_reasons.specs.Rules.{attempt_rules};

use crate::reading::why_not_read;
use crate::reason::Reason;
use policy_tree::Policy;
use round_judge::Past;
use round_judge::glances::attempt;
use round_model::Plan;
use round_model::attempt::Attempt;
use sched_base::{CoreId, Pos, Reads, Stolen};

/// Why the core may not make its attempt by these reads, or why that isn't what comes of it, if there is a reason.
/// `start` is the position just after the last Round.
pub(crate) fn why_not_attempt(
    policy: &Policy,
    plan: &Plan,
    past: &Past,
    start: Pos,
    by: CoreId,
    reads: &Reads,
    claimed: Attempt,
) -> Option<Reason>
    requires fits { Fits (meaning_of policy.now) plan.now }
    requires handlers { MeetsHandlerObligations (meaning_of policy.now) }
    requires past { IsPastOf (meaning_of policy.now) plan.now past.now }
    requires history { HasHistory plan.now past.now }
    requires start { StartsAt past.now start }
    ensures { OfEach (meaning_of policy.now) plan.now past.now (λ history.
        Judges (meaning_of policy.now) plan.now history (entry_of_attempt by reads.now claimed) attempt_rules result) }
{
    if past.rounds() == 0 {
        return Some(Reason::NoneOpen);
    }
    if by >= plan.cores {
        return Some(Reason::NoCore);
    }
    let turn = past.turn(by);
    if !turn.worked {
        return Some(Reason::IsToWork);
    }
    if turn.attempted {
        return Some(Reason::HasAttempted);
    }
    if let Some(reason) = why_not_read(reads, plan.cores, start, past.entries()) {
        return Some(reason);
    }
    let made = attempt(policy, plan, past, by, reads);
    why_other(&claimed, &made)
}

/// Why the attempt isn't the one that is made, if there is a reason.
fn why_other(claimed: &Attempt, made: &Attempt) -> Option<Reason>
    ensures { IsOtherReason claimed.now made.now result }
{
    let from = core(made);
    if core(claimed) != from {
        return Some(Reason::Choice(from));
    }
    let taking = takes(made);
    if takes(claimed) != taking {
        return Some(Reason::Filter(taking));
    }
    if claimed.is(*made) {
        None
    } else {
        Some(Reason::Threads(threads(made)))
    }
}

/// The core that the attempt is on, if it is on one.
fn core(attempt: &Attempt) -> Option<CoreId>
    ensures { result ≡ core_of attempt.now }
{
    match attempt {
        Attempt::Pass => None,
        Attempt::Fail(from) | Attempt::Steal(from, _) => Some(*from),
    }
}

/// Whether the attempt takes threads.
fn takes(attempt: &Attempt) -> bool
    ensures { result ≡ takes_threads attempt.now }
{
    match attempt {
        Attempt::Pass | Attempt::Fail(_) => false,
        Attempt::Steal(_, _) => true,
    }
}

/// The threads that the attempt takes.
fn threads(attempt: &Attempt) -> Stolen
    ensures { result ≡ threads_of attempt.now }
{
    match attempt {
        Attempt::Pass | Attempt::Fail(_) => Stolen::empty(),
        Attempt::Steal(_, threads) => *threads,
    }
}
