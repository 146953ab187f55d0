//! What serial play asks of a plan: the order of a round, the most steps of a turn, and whether a round fits.

ghost use Rattle.std.specs.Prelude.{◌≡◌, ◌==◌, ◌↔◌, ◌≤◌, IsTrue, find, length, option_map};
ghost use Rattle.round_model.specs.declared.plan.OrderLine.{OrderLine};
ghost use Rattle.serial_steps.specs.SerialEnds.{RoundFits};
ghost use Rattle.serial_steps.specs.SerialRounds.{most_steps as most_steps_of, order_of};

use round_model::{History, OrderLine, Plan};
use sched_base::{CoreId, MAX_CORES, MAX_ENTRIES, MAX_THREADS};

/// What serial play comes to.
#[derive(Drop)]
pub enum Played {
    /// The whole history.
    Whole(History),
    /// The complete rounds before the first that might not fit the plan's limit.
    Full(History),
}

/// The most steps of a turn.
pub fn most_steps(plan: &Plan) -> u32
    requires { length plan.now.threads ≤ MAX_THREADS }
    ensures { result ≡ most_steps_of plan.now }
{
    2 * plan.threads.len() + 3
}

/// Whether all entries that a round may add fit the plan's limit behind so many.
pub fn round_fits(plan: &Plan, entries: u32) -> bool
    requires threads { length plan.now.threads ≤ MAX_THREADS }
    requires cores { plan.now.cores ≤ MAX_CORES }
    requires entries { entries ≤ MAX_ENTRIES }
    ensures { IsTrue result ↔ RoundFits plan.now entries }
{
    entries + 1 + 2 * plan.cores + plan.threads.len() <= plan.limit
}

/// The cores of the plan's order line for the round of that number: none where it has no such line.
pub fn ordered_cores(plan: &Plan, number: u32) -> &[CoreId]
    ensures { result.now ≡ order_of plan.now number }
{
    match order_line(plan.orders.as_slice(), number) {
        None => &[],
        Some(line) => line.cores.as_slice(),
    }
}

/// The order line for the round of that number.
fn order_line(orders: &[OrderLine], number: u32) -> Option<&OrderLine>
    ensures { option_map (λ line. line.now) result ≡ find (λ (l : OrderLine). l.round == number) orders.now }
{
    orders.iter().find(|line| line.round == number)
}
