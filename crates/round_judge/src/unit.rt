//! One unit of work of a core.

ghost use Rattle.std.specs.Prelude.{◌≡◌, ◌↔◌, ◌<◌, ◌≤◌, Contains, IsTrue, MatchOption, OnErr, OnOk, option_to_list};
ghost use Rattle.policy_tree.specs.Meaning.{meaning_of};
ghost use Rattle.policy_eval.specs.Fitting.{IsTask};
ghost use Rattle.policy_eval.specs.Obligations.{MeetsHandlerObligations};
ghost use Rattle.policy_eval.specs.Ranges.{AreIn, attribute_ranges};
ghost use Rattle.policy_eval.specs.Resolved.{IsResolved};
ghost use Rattle.round_model.specs.After.{after, round_of};
ghost use Rattle.round_model.specs.Bounds.{CoreInBounds};
ghost use Rattle.round_model.specs.Fits.{Fits};
ghost use Rattle.round_model.specs.Lists.{Lists};
ghost use Rattle.round_model.specs.UnitSteps.{IsIdleCore};
ghost use Rattle.round_judge.specs.Code.UnitSteps.{IsMet, Runs};
ghost use Rattle.round_judge.specs.Past.{IsPastOf, OfEach};
ghost use Rattle.round_judge.specs.Units.{HasTask, IsSmallCore, IsUnit, Stands, core_after_unit, dids_of_unit};
ghost use Rattle.round_judge.specs.Units.{with_listed, without};

use crate::directory::{Directory, next_burst_of};
use crate::past::Past;
use policy_eval::apply_case;
use policy_tree::{Event, Policy, Put};
use round_model::election::best_place;
use round_model::{
    Blocked, Burst, Did, Meeting, ModelCore, ModelMemory, Plan, meeting_of, place_after,
};
use sched_base::{CoreId, MAX_ROUNDS, Task, ThreadId};

/// What a unit of work comes to. `elected` is the place in the queue of the task that ran, `None` where it was the
/// current one.
#[derive(Clone, Copy)]
pub enum Unit {
    /// There was no task to run.
    Idle,
    /// The task that was to run has no burst in the plan.
    Stuck,
    /// The task ran, met an event and was put somewhere.
    Met {
        elected: Option<u32>,
        task: Task,
        put: Put,
        wake: u32,
    },
    /// The task ended.
    Over {
        elected: Option<u32>,
        id: ThreadId,
    },
}

impl Unit {
    /// What an entry says of the unit, where it may say something.
    pub fn did(self) -> Option<Did>
        ensures { option_to_list result ≡ dids_of_unit self }
    {
        match self {
            Unit::Idle => Some(Did::Nothing),
            Unit::Stuck => None,
            Unit::Met { task, put, .. } => Some(match put {
                Put::Queue => Did::Queued(task.id),
                Put::Keep => Did::Kept(task.id),
                Put::Block => Did::Blocked(task.id),
            }),
            Unit::Over { id, .. } => Some(Did::Ended(id)),
        }
    }

    /// Whether the unit may be said to be that.
    pub(crate) fn tells(self, did: Did) -> bool
        ensures { IsTrue result ↔ Contains (dids_of_unit self) did }
    {
        match self.did() {
            None => false,
            Some(told) => is_same(told, did),
        }
    }

    /// Changes the core as the unit does. Without memory for that the core stays as it was.
    pub(crate) fn run(self, core: &mut ModelCore) -> Result<(), ModelMemory>
        requires there { Stands core.old self }
        requires room { IsSmallCore core.old }
        ensures ok { OnOk result (core.new ≡ core_after_unit core.old self) }
        ensures err { OnErr result (core.new ≡ core.old) }
    {
        match self {
            Unit::Idle | Unit::Stuck => {}
            Unit::Met {
                elected,
                task,
                put,
                wake,
            } => {
                grow(core, task, put, wake)?;
                leave(core, elected);
                if let Put::Keep = put {
                    core.current = Some(task);
                }
            }
            Unit::Over { elected, .. } => leave(core, elected),
        }
        Ok(())
    }
}

/// Whether both say the same.
fn is_same(told: Did, did: Did) -> bool
    ensures { IsTrue result ↔ (told ≡ did) }
{
    told == did
}

/// The task at the end of the list that it is put to, where it is put to one.
fn grow(core: &mut ModelCore, task: Task, put: Put, wake: u32) -> Result<(), ModelMemory>
    requires { IsSmallCore core.old }
    ensures ok { OnOk result (core.new ≡ with_listed put wake task core.old) }
    ensures err { OnErr result (core.new ≡ core.old) }
{
    match put {
        Put::Queue => core.queue.push(task)?,
        Put::Keep => {}
        Put::Block => core.blocked.push(Blocked { task, wake })?,
    }
    Ok(())
}

/// Takes the task that ran out of the core.
fn leave(core: &mut ModelCore, elected: Option<u32>)
    requires { HasTask elected core.old }
    ensures { core.new ≡ without elected core.old }
{
    match elected {
        Some(at) => {
            let _task = core.queue.remove(at);
        }
        None => {}
    }
    core.current = None;
}

/// What a unit of the core comes to, in that round.
pub(crate) fn unit_of(
    policy: &Policy,
    plan: &Plan,
    directory: &Directory,
    core: &ModelCore,
    round: u32,
) -> Unit
    requires fits { Fits (meaning_of policy.now) plan.now }
    requires handlers { MeetsHandlerObligations (meaning_of policy.now) }
    requires listed { Lists plan.now directory.now }
    requires bounds { CoreInBounds (meaning_of policy.now) core.now }
    requires round { round ≤ MAX_ROUNDS }
    ensures { IsUnit (meaning_of policy.now) plan.now round core.now result }
{
    let Some((elected, task)) = running(policy, core) else {
        return Unit::Idle;
    };
    let Some(burst) = next_burst_of(directory, plan, &task) else {
        return Unit::Stuck;
    };
    let mut ran = task;
    ran.place = place_after(burst, task.place);
    match meeting_of(burst, task.place) {
        Meeting::Tick => met(policy, core, elected, ran, Event::Tick, 0),
        Meeting::Yield => met(policy, core, elected, ran, Event::Yield, 0),
        Meeting::Block(rounds) => met(policy, core, elected, ran, Event::Block, round + rounds),
        Meeting::End => Unit::Over {
            elected,
            id: ran.id,
        },
    }
}

/// What the unit comes to that the core runs next.
pub fn next_unit(policy: &Policy, plan: &Plan, past: &Past, core: CoreId) -> Unit
    requires fits { Fits (meaning_of policy.now) plan.now }
    requires handlers { MeetsHandlerObligations (meaning_of policy.now) }
    requires past { IsPastOf (meaning_of policy.now) plan.now past.now }
    requires core { core < plan.now.cores }
    ensures { OfEach (meaning_of policy.now) plan.now past.now (λ history. IsUnit (meaning_of policy.now) plan.now
        (round_of history) (after (meaning_of policy.now) plan.now history core) result) }
{
    let state = past.state.get(core);
    unit_of(policy, plan, &past.directory, state, past.rounds)
}

/// The task that runs the next unit, with its place in the queue where it has to be elected.
fn running(policy: &Policy, core: &ModelCore) -> Option<(Option<u32>, Task)>
    requires policy { IsResolved (meaning_of policy.now) }
    requires bounds { CoreInBounds (meaning_of policy.now) core.now }
    ensures { MatchOption result (IsIdleCore core.now) (λ x. Runs (meaning_of policy.now) core.now x.0 x.1) }
{
    if let Some(task) = core.current {
        return Some((None, task));
    }
    let at = best_place(&policy.elect, core.queue.as_slice())?;
    Some((Some(at), *core.queue.get(at)))
}

/// The unit of a task that meets the event and may wake in that round.
fn met(
    policy: &Policy,
    core: &ModelCore,
    elected: Option<u32>,
    ran: Task,
    event: Event,
    wake: u32,
) -> Unit
    requires policy { IsResolved (meaning_of policy.now) }
    requires handlers { MeetsHandlerObligations (meaning_of policy.now) }
    requires consts { AreIn (attribute_ranges policy.now.core_attrs) core.now.consts }
    requires task { IsTask (meaning_of policy.now) ran }
    ensures { IsMet (meaning_of policy.now) core.now elected ran event wake result }
{
    let (task, put) = apply_case(policy, event, false, ran, &core.consts);
    Unit::Met {
        elected,
        task,
        put,
        wake,
    }
}
