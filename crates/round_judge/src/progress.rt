//! How far the cores have come in the open round.

ghost use Rattle.std.specs.Prelude.{◌≡◌, ◌↔◌, ◌<◌, IsTrue, find, length, option_map};
ghost use Rattle.policy_tree.specs.Meaning.{Meaning};
ghost use Rattle.round_model.specs.declared.plan.Plan.{Plan};
ghost use Rattle.round_model.specs.declared.state.Blocked.{Blocked};
ghost use Rattle.round_model.specs.After.{after, round_of};
ghost use Rattle.round_model.specs.Progress.{HasLetIn, OwesAttempt, OwesUnit};
ghost use Rattle.round_model.specs.Scenes.{entering_next, is_due_blocked, own_entries, waking_next};
ghost use Rattle.round_judge.specs.Past.{OfEach, arrives_at};

use crate::past::{Arrival, Past};
use round_model::{Blocked, Plan};
use sched_base::{CoreId, ThreadId};

/// Whether a round is open and the core is there.
pub(crate) fn may_act(plan: &Plan, past: &Past, core: CoreId) -> bool
    ensures { IsTrue result ↔ (0 < past.now.rounds) × (core < plan.now.cores) }
{
    past.rounds > 0 && core < plan.cores
}

/// The thread that the core lets in next.
pub fn arriving(past: &Past, core: CoreId) -> Option<ThreadId>
    requires { 0 < past.now.rounds }
    ensures { (p : Meaning) (plan : Plan) → OfEach p plan past.now (λ history.
        result ≡ option_map (λ t. t.id) (entering_next plan (round_of history) core (own_entries history core))) }
{
    first_arrival(past.arrivals.as_slice(), core)
}

/// The number of the first of these arrivals that comes by the core.
pub fn first_arrival(arrivals: &[Arrival], core: CoreId) -> Option<ThreadId>
    ensures { result ≡ option_map (λ x. x.id) (find (arrives_at core) arrivals.now) }
{
    let arrival = arrivals.iter().find(|arrival| arrival.core == core)?;
    Some(arrival.id)
}

/// Whether a round is open and the core is there, with no thread left that it is to let in.
pub(crate) fn has_let_in(plan: &Plan, past: &Past, core: CoreId) -> bool
    ensures there { IsTrue result → (0 < past.now.rounds) × (core < plan.now.cores) }
    ensures let_in { (p : Meaning) → OfEach p plan.now past.now (λ history. IsTrue result
        ↔ (0 < past.now.rounds) × (core < plan.now.cores) × HasLetIn plan.now history core) }
{
    may_act(plan, past, core) && arriving(past, core).is_none()
}

/// Whether the core has no thread left to wake, and has yet to run its unit of the round.
pub(crate) fn owes_unit(past: &Past, core: CoreId) -> bool
    requires state { core < length past.now.state }
    requires turns { core < length past.now.turns }
    ensures { (p : Meaning) (plan : Plan) → OfEach p plan past.now (λ history. core < plan.cores →
        IsTrue result ↔ OwesUnit p plan history core) }
{
    waking(past, core).is_none() && !past.turns.get(core).worked
}

/// Whether the core has run its unit of the round, and has yet to make its attempt.
pub(crate) fn owes_attempt(past: &Past, core: CoreId) -> bool
    requires { core < length past.now.turns }
    ensures { (p : Meaning) (plan : Plan) → OfEach p plan past.now (λ history. core < plan.cores →
        IsTrue result ↔ OwesAttempt history core) }
{
    let turn = past.turns.get(core);
    turn.worked && !turn.attempted
}

/// The blocked thread of the core that wakes next.
pub fn waking(past: &Past, core: CoreId) -> Option<ThreadId>
    requires { core < length past.now.state }
    ensures { (p : Meaning) (plan : Plan) → OfEach p plan past.now (λ history. core < plan.cores →
        result ≡ option_map (λ b. b.task.id) (waking_next (round_of history) (after p plan history core))) }
{
    first_due(past.state.get(core).blocked.as_slice(), past.rounds)
}

/// The number of the first of these threads whose round has come.
fn first_due(blocked: &[Blocked], round: u32) -> Option<ThreadId>
    ensures { result ≡ option_map (λ (b : Blocked). b.task.id) (find (is_due_blocked round) blocked.now) }
{
    let due = blocked.iter().find(|blocked| blocked.wake <= round)?;
    Some(due.task.id)
}
