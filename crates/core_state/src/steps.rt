//! What the calls of a core share.

ghost use Rattle.std.specs.Prelude.{◌≡◌};
ghost use Rattle.sched_base.specs.declared.task.Task.{Task};
ghost use Rattle.round_model.specs.Moves.{is_blocked_task};
ghost use Rattle.round_model.specs.Updates.{IsFirstPlace};
ghost use Rattle.round_model.specs.Work.{did_of as word_of};

use policy_tree::Put;
use round_model::{Blocked, Did};
use sched_base::ThreadId;

/// The word for where the task was put.
pub(crate) fn did_of(id: ThreadId, place: Put) -> Did
    ensures { (t : Task) → result ≡ word_of id (t, place) }
{
    match place {
        Put::Queue => Did::Queued(id),
        Put::Keep => Did::Kept(id),
        Put::Block => Did::Blocked(id),
    }
}

/// The place of the earliest blocked task of that number.
pub(crate) fn blocked_place(blocked: &[Blocked], thread: ThreadId) -> Option<usize>
    ensures { IsFirstPlace (is_blocked_task thread) blocked.now result }
{
    for at in 0..blocked.len() {
        if blocked[at].task.id == thread {
            return Some(at);
        }
    }
    None
}
