//! The threads of a plan that enter by a core in a round.

ghost use Rattle.std.specs.Prelude.{◌≡◌, length, option_map, slice_get};
ghost use Rattle.round_model.specs.declared.plan.Planned.{Planned as Listed};
ghost use Rattle.turn_steps.specs.States.{entering_by, enters_by};

use round_model::{Plan, Planned};
use sched_base::{CoreId, ThreadId};

/// Whether the thread enters by the core in the round.
fn enters(thread: &Planned, core: CoreId, round: u32) -> bool
    ensures { result ≡ enters_by core round thread.now }
{
    thread.core == core && thread.round == round
}

/// How many threads enter by the core in the round.
pub(crate) fn count_entering(plan: &Plan, core: CoreId, round: u32) -> u32
    ensures { result ≡ length (entering_by plan.now core round) }
{
    let threads = plan.threads.as_slice();
    threads
        .iter()
        .filter(|thread| enters(thread, core, round))
        .count() as u32
}

/// The thread behind the first so many of them, if there is one.
pub(crate) fn entering_behind(
    plan: &Plan,
    core: CoreId,
    round: u32,
    passed: u32,
) -> Option<ThreadId>
    ensures { result
        ≡ option_map (λ (t : Listed). t.id) (slice_get (entering_by plan.now core round) passed) }
{
    let mut left = passed;
    for thread in plan.threads.as_slice() {
        if enters(thread, core, round) {
            if left == 0 {
                return Some(thread.id);
            }
            left -= 1;
        }
    }
    None
}
