//! Which cores a worker plays.

ghost use Rattle.std.specs.Prelude.{◌≡◌, ◌≤◌};
ghost use Rattle.turn_steps.specs.Shares.{first_of};

use sched_base::CoreId;

/// The first core of that worker, of so many. Behind the last worker it is the number of cores.
pub fn first_core(cores: u32, workers: u32, worker: u32) -> CoreId
    requires workers { (1 ≤ workers) × (worker ≤ workers) }
    ensures { result ≡ first_of cores workers worker }
{
    (worker as u64 * cores as u64 / workers as u64) as u32
}
