//! The load spread of a state, by the definition: each pair of cores once.

ghost use Rattle.std.specs.Prelude.{◌≡◌, ◌*◌, ◌≤◌, All, length, sum_by};
ghost use Rattle.std.specs.Int.{abs_diff};
ghost use Rattle.round_model.specs.Spread.{spread_of as spread_of_loads};

use sched_base::{MAX_CORES, MAX_LOAD};

/// The sum of the distances between these loads, those of all cores, each pair counted once.
pub fn spread_of(loads: &[u64]) -> u64
    requires few { length loads.now ≤ MAX_CORES }
    requires small { All (λ load. load ≤ MAX_LOAD) loads.now }
    ensures { result ≡ spread_of_loads loads.now }
{
    let mut spread = 0;
    for at in (0..loads.len()).rev() {
        spread += distances(loads[at], &loads[at + 1..]);
    }
    spread
}

/// The sum of the distances of one load to others.
fn distances(load: u64, others: &[u64]) -> u64
    requires few { length others.now ≤ MAX_CORES }
    requires own { load ≤ MAX_LOAD }
    requires small { All (λ other. other ≤ MAX_LOAD) others.now }
    ensures value { result ≡ sum_by (abs_diff load) others.now }
    ensures small { result ≤ length others.now * MAX_LOAD }
{
    let mut sum = 0;
    for other in others {
        sum += load.abs_diff(*other);
    }
    sum
}
