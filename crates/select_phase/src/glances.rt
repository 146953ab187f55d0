//! One read of each core.

ghost use Rattle.std.specs.Prelude.{◌≤◌};
ghost use Rattle.core_table.specs.Public.{IsOf, plan_of, view_of};
ghost use Rattle.core_table.specs.Told.{IsKnown};
ghost use Rattle.select_phase.specs.Seen.{AreAll, AreLast, AreLate, HasMoreNotes};
ghost use Rattle.select_phase.specs.Glances.{AreGlanced};

use core_table::{Seat, Table};
use policy_eval::CoreValues;
use sched_base::{MAX_CORES, Reads};

/// Reads each core once, in the order of their numbers: of each the position at which it was read, and in its place
/// what the policy may ask of it by that.
pub(crate) fn glance(table: &Table, seat: &mut Seat, values: &mut [CoreValues; MAX_CORES]) -> Reads
    requires seat { IsOf table.now seat.old }
    requires some { 1 ≤ (plan_of table.now).cores }
    ensures seat { IsOf table.now seat.new × HasMoreNotes (view_of seat.old) (view_of seat.new) }
    ensures known { IsKnown (view_of seat.new) }
    ensures seen { AreGlanced (view_of seat.new) result values.new }
    ensures late { AreLate (view_of seat.old) result }
    ensures last { AreLast (view_of seat.new) result }
    ensures all { AreAll (view_of seat.old) (view_of seat.new) result }
{
    let mut reads = Reads::empty();
    for core in 0..table.cores() {
        let read = table.read(seat, core);
        reads.push(read.at);
        values[core as usize] = CoreValues {
            nr: read.nr,
            load: read.load,
            consts: *table.consts(core),
        };
    }
    reads
}
