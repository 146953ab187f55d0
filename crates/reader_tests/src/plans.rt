//! Plans, spelled so that each number of theirs is shown.

use job_trace::{PlanFault, Trace, plan};
use policy_tree::Policy;
use round_model::{Burst, Ending, OrderLine, Plan, Planned};
use std::alloc::{AllocError, Global};
use std::fmt::Write;

/// The plan of the trace under the policy, or the word of its fault and the line.
pub(crate) fn plan_answer(
    alloc: Global,
    trace: &Trace,
    policy: &Policy,
) -> Result<String, AllocError> {
    match plan(alloc, trace, policy) {
        Ok(plan) => plan_text(alloc, &plan),
        Err(PlanFault::WeightRange(line)) => format!(in alloc; "weight-range {line}"),
        Err(PlanFault::ConstRange(line)) => format!(in alloc; "const-range {line}"),
        Err(PlanFault::ConstName(line)) => format!(in alloc; "const-name {line}"),
        Err(PlanFault::Memory) => Err(AllocError),
    }
}

/// The whole plan. Of the constants of each core the first two and the last one are shown.
fn plan_text(alloc: Global, plan: &Plan) -> Result<String, AllocError> {
    let mut text = String::new(alloc);
    show_header(&mut text, plan)?;
    show_constants(&mut text, plan)?;
    show_threads(&mut text, plan)?;
    show_orders(&mut text, plan)?;
    Ok(text)
}

/// Its numbers of cores, rounds and entries.
fn show_header(text: &mut String, plan: &Plan) -> Result<(), AllocError> {
    let (cores, rounds, limit) = (plan.cores, plan.rounds, plan.limit);
    write!(text, "{cores} cores {rounds} rounds {limit} entries")
}

/// The constants of each core.
fn show_constants(text: &mut String, plan: &Plan) -> Result<(), AllocError> {
    for of_core in plan.consts.as_slice() {
        let [first, second, .., last] = of_core;
        write!(text, " ({first} {second} {last})")?;
    }
    Ok(())
}

/// Each thread.
fn show_threads(text: &mut String, plan: &Plan) -> Result<(), AllocError> {
    for thread in plan.threads.as_slice() {
        show_thread(text, thread)?;
    }
    Ok(())
}

/// A thread with its bursts.
fn show_thread(text: &mut String, thread: &Planned) -> Result<(), AllocError> {
    let (id, core, round, weight) = (thread.id, thread.core, thread.round, thread.weight);
    write!(text, "; {id} at {core} in {round} weighs {weight}")?;
    for burst in thread.bursts.as_slice() {
        show_burst(text, burst)?;
    }
    Ok(())
}

/// A burst, and what becomes of its thread.
fn show_burst(text: &mut String, burst: &Burst) -> Result<(), AllocError> {
    let units = burst.units;
    match burst.ending {
        Ending::End => write!(text, " run {units}"),
        Ending::Forever => write!(text, " forever {units}"),
        Ending::Yield => write!(text, " run {units} yield"),
        Ending::Block(rounds) => write!(text, " run {units} block {rounds}"),
    }
}

/// Each order.
fn show_orders(text: &mut String, plan: &Plan) -> Result<(), AllocError> {
    for order in plan.orders.as_slice() {
        show_order(text, order)?;
    }
    Ok(())
}

/// The order of a round.
fn show_order(text: &mut String, order: &OrderLine) -> Result<(), AllocError> {
    write!(text, "; order {}:", order.round)?;
    for core in order.cores.as_slice() {
        write!(text, " {core}")?;
    }
    Ok(())
}
