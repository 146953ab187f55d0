//! The programs of threads: which burst comes next, and what a unit of it leads to.

ghost use Rattle.std.specs.Prelude.{◌≡◌, ◌<◌, ◌≤◌, MatchOption, None, Some};
ghost use Rattle.round_model.specs.Programs.{burst_of, is_endless as has_no_end, is_last_unit as is_last};
ghost use Rattle.round_model.specs.Programs.{meeting_of as meeting_at, place_after as next_place, planned_of};
ghost use Rattle.round_model.specs.UnitSteps.{IsMeeting};

use crate::plan::{Burst, Ending, Plan, Planned};
use sched_base::{MAX_BURSTS, Place, Task, ThreadId};

/// What a thread meets after a unit.
#[derive(Clone, Copy)]
pub enum Meeting {
    /// Its burst goes on.
    Tick,
    /// Its burst is over, and it yields.
    Yield,
    /// Its burst is over, and it blocks for so many rounds.
    Block(u32),
    /// It ends.
    End,
}

/// The burst that the task runs next, where its program has one left.
pub fn next_burst(plan: &Plan, task: &Task) -> Option<Burst>
    ensures { result ≡ burst_of plan.now task.now }
{
    let thread = planned(plan, task.id)?;
    thread
        .bursts
        .as_slice()
        .get(task.place.burst as usize)
        .copied()
}

/// The thread of the plan with that number.
pub fn planned(plan: &Plan, id: ThreadId) -> Option<&Planned>
    ensures { MatchOption result (planned_of plan.now id ≡ None) (λ t. planned_of plan.now id ≡ Some t.now) }
{
    for thread in plan.threads.as_slice() {
        if thread.id == id {
            return Some(thread);
        }
    }
    None
}

/// What the thread meets after its next unit.
pub fn meeting_of(burst: Burst, place: Place) -> Meeting
    requires { 1 ≤ burst.units }
    ensures { IsMeeting (meeting_at burst place) result }
{
    if !is_last_unit(burst, place) {
        return Meeting::Tick;
    }
    match burst.ending {
        Ending::Yield => Meeting::Yield,
        Ending::Block(rounds) => Meeting::Block(rounds),
        Ending::End => Meeting::End,
        Ending::Forever => Meeting::Tick,
    }
}

/// Where the thread stands after its next unit.
pub fn place_after(burst: Burst, place: Place) -> Place
    requires units { 1 ≤ burst.units }
    requires bursts { place.burst < MAX_BURSTS }
    ensures { result ≡ next_place burst place }
{
    if is_endless(burst) {
        return place;
    }
    if is_last_unit(burst, place) {
        return Place {
            burst: place.burst + 1,
            done: 0,
        };
    }
    Place {
        burst: place.burst,
        done: place.done + 1,
    }
}

/// Whether the next unit is the last of the burst.
fn is_last_unit(burst: Burst, place: Place) -> bool
    requires { 1 ≤ burst.units }
    ensures { result ≡ is_last burst place }
{
    !is_endless(burst) && burst.units - 1 <= place.done
}

/// Whether the burst has no last unit.
fn is_endless(burst: Burst) -> bool
    ensures { result ≡ has_no_end burst.ending }
{
    matches!(burst.ending, Ending::Forever)
}
