//! The ranges of the numbers of a line.

ghost use Rattle.std.specs.Prelude.{◌≡◌, map};
ghost use Rattle.job_trace.specs.Rules.{block_measures, burst_measures, const_measure, constant, first_passed};
ghost use Rattle.job_trace.specs.Rules.{measures, order_measures, passed_end, ranged};

use crate::trace::{NamedConst, TraceLine};
use round_model::{Burst, Ending};
use sched_base::{
    CoreId, MAX_ATTRIBUTE, MAX_BLOCK_ROUNDS, MAX_BURSTS, MAX_CORES, MAX_ENTRIES, MAX_ORDER_CORES,
    MAX_ROUNDS, MAX_THREADS, MAX_UNITS, MAX_WEIGHT,
};

/// The end of its range that the first number out of its range passes, under so many cores.
pub(crate) fn limit(line: &TraceLine, cores: u32) -> Option<i64>
    ensures { result ≡ first_passed (measures cores line.now) }
{
    let last = cores.saturating_sub(1);
    match line {
        TraceLine::Cores(number) => passed_end(*number, 1, MAX_CORES as u32),
        TraceLine::Rounds(number) => passed_end(*number, 0, MAX_ROUNDS),
        TraceLine::Entries(number) => passed_end(*number, 0, MAX_ENTRIES),
        TraceLine::Core(given) => {
            passed_end(given.core, 0, last).or(consts_limit(given.consts.as_slice()))
        }
        TraceLine::Thread(thread) => passed_end(thread.id, 1, MAX_THREADS)
            .or(passed_end(thread.core, 0, last))
            .or(passed_end(thread.round, 1, MAX_ROUNDS))
            .or(passed_end(thread.weight, 1, MAX_WEIGHT))
            .or(bursts_limit(thread.bursts.as_slice())),
        TraceLine::Order(order) => {
            let later = cores_limit(order.cores.as_slice(), last);
            passed_end(order.round, 1, MAX_ROUNDS).or(later)
        }
    }
}

/// The end that the first value of constants passes.
fn consts_limit(consts: &[NamedConst]) -> Option<i64>
    ensures { result ≡ first_passed (map const_measure consts.now) }
{
    for given in consts {
        let passed = passed_value(given.value);
        if passed.is_some() {
            return passed;
        }
    }
    None
}

/// The end of their range that the value of a constant passes.
fn passed_value(value: i32) -> Option<i64>
    ensures { result ≡ passed_end (constant value) }
{
    if value < -MAX_ATTRIBUTE {
        Some(-i64::from(MAX_ATTRIBUTE))
    } else if value > MAX_ATTRIBUTE {
        Some(i64::from(MAX_ATTRIBUTE))
    } else {
        None
    }
}

/// The end that the first number of bursts passes. The count of each burst stands before its numbers.
fn bursts_limit(bursts: &[Burst]) -> Option<i64>
    ensures { result ≡ first_passed (burst_measures 1 bursts.now) }
{
    let mut count = 1;
    for burst in bursts {
        let passed = passed_end(count, 1, MAX_BURSTS as u32)
            .or(passed_end(burst.units, 1, MAX_UNITS))
            .or(block_limit(burst.ending));
        if passed.is_some() {
            return passed;
        }
        count += 1;
    }
    None
}

/// The end that the rounds of a block pass.
fn block_limit(ending: Ending) -> Option<i64>
    ensures { result ≡ first_passed (block_measures ending) }
{
    match ending {
        Ending::Block(rounds) => passed_end(rounds, 1, MAX_BLOCK_ROUNDS),
        Ending::Yield | Ending::End | Ending::Forever => None,
    }
}

/// The end that the first number of an order's cores passes. The count of each core stands before its number.
fn cores_limit(cores: &[CoreId], last: u32) -> Option<i64>
    ensures { result ≡ first_passed (order_measures last 1 cores.now) }
{
    let mut count = 1;
    for core in cores {
        let passed = passed_end(count, 1, MAX_ORDER_CORES as u32).or(passed_end(*core, 0, last));
        if passed.is_some() {
            return passed;
        }
        count += 1;
    }
    None
}

/// The end of the range that the number passes.
fn passed_end(value: u32, low: u32, high: u32) -> Option<i64>
    ensures { result ≡ passed_end (ranged value low high) }
{
    if value < low {
        Some(i64::from(low))
    } else if value > high {
        Some(i64::from(high))
    } else {
        None
    }
}
