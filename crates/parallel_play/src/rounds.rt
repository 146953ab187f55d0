//! All rounds of a plan.

ghost use Rattle.std.specs.Prelude.{◌≡◌, ℕ, IfErr, IfOk, IsTrue};
ghost use Rattle.policy_tree.specs.Meaning.{meaning_of};
ghost use Rattle.round_model.specs.Fits.{Fits};
ghost use Rattle.round_model.specs.Limits.{IsWithinLimits};
ghost use Rattle.core_table.specs.Public.{Becomes, plan_of, policy_of};
ghost use Rattle.core_table.specs.Views.{first_view};
ghost use Rattle.parallel_play.specs.Runs.{IsFaultOf, RunsWhole};

use crate::fault::RunFault;
use crate::stage::Stage;
use crate::sums::Tally;
use crate::turns::play_round;
use core_state::Closed;
use core_table::{Seat, Table};
use policy_tree::Policy;
use round_model::Plan;
use sched_io::Gate;
use serial_steps::round_fits;
use std::sync::Wait;
use std::thread::Threads;

/// Plays the plan under the policy, all cores side by side, as far as the plan's limit lets it come. Table and seat are
/// as they were opened with these two. No memory is taken.
///
/// # Errors
///
/// `RunFault::HistoryFull` where a round is due and all entries that it may have might not fit the limit: its
/// beginning, two for each core, and one for each thread.
pub fn run_rounds<R: Threads + Wait + Sync, G: Gate + Sync>(
    rt: &R,
    policy: &Policy,
    plan: &Plan,
    table: Table,
    mut seat: Seat,
    gate: &G,
) -> Result<Closed, RunFault>
    requires fits { Fits (meaning_of policy.now) plan.now }
    requires limits { IsWithinLimits plan.now }
    requires opened { (policy.now ≡ policy_of table) × (plan.now ≡ plan_of table) }
    requires seat { Becomes table seat (first_view policy.now plan.now) }
    requires gate { (c r : ℕ) → IsTrue (G.admits gate.now c r) }
    ensures whole { IfOk result (RunsWhole (meaning_of policy.now) plan.now (G.passed gate.now)) }
    ensures fault { IfErr result (IsFaultOf (meaning_of policy.now) plan.now (G.passed gate.now)) }
{
    let mut tally = Tally::new();
    for begun in 0..plan.rounds {
        if !tally.is_due(plan, begun) {
            return Ok(table.close(seat));
        }
        if !round_fits(plan, tally.entries) {
            return Err(RunFault::HistoryFull(table.close(seat)));
        }
        let stage = Stage {
            table: &table,
            policy,
            plan,
            round: begun + 1,
        };
        (seat, tally) = play_round(rt, &stage, gate, seat, tally);
    }
    Ok(table.close(seat))
}
