//! Where a plan has the thread of each number.

ghost use Rattle.std.specs.Prelude.{◌≡◌, IfOk, MatchOption, None, Some};
ghost use Rattle.policy_tree.specs.Meaning.{Meaning};
ghost use Rattle.round_model.specs.Fits.{Fits};
ghost use Rattle.round_model.specs.Lists.{Lists};
ghost use Rattle.round_model.specs.Programs.{burst_of as next_burst, planned_of};

use lists::Items;
use round_model::{Burst, ModelMemory, Plan, Planned};
use sched_base::{MAX_THREADS, Task, ThreadId};
use std::alloc::Global;

/// For each number of a thread, the place that it has in a plan's list, if it is there.
pub(crate) type Directory = Items<Option<u32>>;

/// The directory of a plan.
pub(crate) fn directory_of(alloc: Global, plan: &Plan) -> Result<Directory, ModelMemory>
    ensures { IfOk result (λ directory. (p : Meaning) → Fits p plan.now → Lists plan.now directory) }
{
    let mut places = Vec::from_elem(alloc, None, MAX_THREADS as usize + 1)?;
    for at in (0..plan.threads.len()).rev() {
        let id = plan.threads.get(at).id;
        if id <= MAX_THREADS {
            places[id as usize] = Some(at);
        }
    }
    Ok(Directory::from_vec(places))
}

/// The thread of the plan with that number.
pub(crate) fn planned<'a>(
    directory: &Directory,
    plan: &'a Plan,
    id: ThreadId,
) -> Option<&'a Planned>
    requires { Lists plan.now directory.now }
    ensures { MatchOption result (planned_of plan.now id ≡ None) (λ t. planned_of plan.now id ≡ Some t.now) }
{
    if directory.len() <= id {
        return None;
    }
    match directory.get(id) {
        None => None,
        Some(at) => plan.threads.as_slice().get(*at as usize),
    }
}

/// The burst that a task runs next, where its program has one left.
pub(crate) fn next_burst_of(directory: &Directory, plan: &Plan, task: &Task) -> Option<Burst>
    requires { Lists plan.now directory.now }
    ensures { result ≡ next_burst plan.now task.now }
{
    let thread = planned(directory, plan, task.id)?;
    thread
        .bursts
        .as_slice()
        .get(task.place.burst as usize)
        .copied()
}
