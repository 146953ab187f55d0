//! What a core reads of all cores that looks just now.

ghost use Rattle.std.specs.Prelude.{◌≡◌, ◌≤◌};
ghost use Rattle.sched_base.specs.declared.limits.TheConstants.{MAX_CORES};
ghost use Rattle.round_model.specs.FreshReads.{touched_from};
ghost use Rattle.core_table.specs.Told.{IsKnown};
ghost use Rattle.select_phase.specs.Glances.{AreGlanced};
ghost use Rattle.turn_tests.specs.Memory.{IsReady, fresh_of, history_of, plan_of, view_of};

use crate::memory_calls::MemoryCalls;
use policy_eval::CoreValues;
use round_model::{History, Plan, round_start, values_of};
use sched_base::{CoreId, MAX_CORES, Pos, Reads};

/// One past the last of the entries that touches the core, and 0 where none does.
fn touched(history: &History, core: CoreId) -> Pos
    ensures { result ≡ touched_from core 0 0 history.now }
{
    let mut last = 0;
    for at in 0..history.len() {
        if history.get(at).touches(core) {
            last = at + 1;
        }
    }
    last
}

/// Of each core the position behind the last entry that touches it, or the round's start where that is later.
pub(crate) fn fresh_reads(plan: &Plan, history: &History) -> Reads
    requires { plan.now.cores ≤ MAX_CORES }
    ensures { result ≡ fresh_of plan.now history.now }
{
    let start = round_start(history);
    let mut reads = Reads::empty();
    for core in 0..plan.cores {
        reads.push(start.max(touched(history, core)));
    }
    reads
}

impl MemoryCalls<'_> {
    /// What the policy may ask of each core by these reads.
    pub(crate) fn values_read(&self, reads: &Reads) -> [CoreValues; MAX_CORES]
        requires ready { IsReady self.now }
        requires fresh { reads.now ≡ fresh_of (plan_of self.now) (history_of self.now) }
        ensures known { IsKnown (view_of self.now) }
        ensures read { AreGlanced (view_of self.now) reads.now result }
    {
        let mut values = CoreValues::NOTHING_SEEN;
        for core in 0..self.plan.cores {
            let seen = self.past.seen_at(core, reads.get(core));
            values[core as usize] = values_of(self.plan, core, seen);
        }
        values
    }
}
