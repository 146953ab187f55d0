//! Makes the plan that a trace means under a policy.

ghost use Rattle.std.specs.Prelude.{◌≡◌, ◌+◌, ◌<◌, ◌≤◌, ◌++◌, ◌^◌, IfOk, IfErr, OnOk, length, vec_len};
ghost use Rattle.std.specs.Option.{option_to_list};
ghost use Rattle.round_model.specs.declared.plan.Plan.{Plan};
ghost use Rattle.round_model.specs.Fits.{Fits};
ghost use Rattle.round_model.specs.Limits.{IsWithinLimits};
ghost use Rattle.policy_eval.specs.Resolved.{IsResolved};
ghost use Rattle.policy_tree.specs.Meaning.{meaning_of};
ghost use Rattle.job_trace.specs.declared.plan_fault.PlanFault.{PlanFault};
ghost use Rattle.job_trace.specs.Plans.{IsForeign, IsPlanFault, MustPlan, MustRefusePlan, SpellsPlan, counted_weight};
ghost use Rattle.job_trace.specs.Plans.{entries_in, limit_of, order_of, orders_of, rounds_in, rounds_of, thread_of};
ghost use Rattle.job_trace.specs.Plans.{threads_of, weighed};

use crate::constants::consts_of;
use crate::fitting::first_fault;
use crate::plan_fault::PlanFault;
use crate::rules::cores_of;
use crate::trace::{Numbered, Trace, TraceLine};
use policy_tree::{Load, Policy};
use round_model::{BurstList, CoreList, OrderLine, OrderList, Plan, Planned, PlannedList};
use sched_base::DEFAULT_ENTRIES;
use std::alloc::{AllocError, Global};

/// The plan that the trace means under the policy. Constants that no line gives start as the policy declares them.
pub fn plan(alloc: Global, trace: &Trace, policy: &Policy) -> Result<Plan, PlanFault>
    ensures plan { IfOk result (SpellsPlan (meaning_of policy.now) trace.now) }
    ensures fits { IsResolved (meaning_of policy.now) → IfOk result (Fits (meaning_of policy.now)) }
    ensures limits { IfOk result IsWithinLimits }
    ensures fault { IfErr result (IsPlanFault (meaning_of policy.now) trace.now) }

    // A trace that means a plan isn't refused, and one that doesn't fit is refused for its first line that doesn't.
    ensures makes { MustPlan (SpellsPlan (meaning_of policy.now) trace.now) result }
    ensures refuses { MustRefusePlan (IsForeign (meaning_of policy.now) trace.now) result }
{
    let lines = trace.lines();
    let attrs = policy.core_attrs.as_slice();
    if let Some(fault) = first_fault(lines, policy.load, attrs) {
        return Err(fault);
    }
    let cores = cores_of(lines);
    let consts = consts_of(alloc, lines, attrs, cores)?;
    let threads = threads_of(alloc, lines, policy.load)?;
    let orders = orders_of(alloc, lines)?;
    Ok(Plan {
        cores,
        rounds: rounds_of(lines),
        limit: limit_of(lines),
        consts,
        threads,
        orders,
    })
}

/// The threads of the lines, in their order.
fn threads_of(alloc: Global, lines: &[Numbered], load: Load) -> Result<PlannedList, AllocError>
    requires { length lines.now < 2 ^ 32 }
    ensures { IfOk result (λ threads. threads ≡ threads_of load lines.now) }
{
    let mut threads = Vec::new(alloc);
    for numbered in lines {
        add_thread(alloc, &mut threads, load, &numbered.line)?;
    }
    Ok(PlannedList::from_vec(threads))
}

/// Adds the thread that the line lets in, if it lets one in.
fn add_thread(
    alloc: Global,
    threads: &mut Vec<Planned>,
    load: Load,
    line: &TraceLine,
) -> Result<(), AllocError>
    ensures adds { OnOk result
        (threads.new.items ≡ threads.old.items ++ option_to_list (thread_of load line.now)) }
    ensures few { vec_len threads.new ≤ vec_len threads.old + 1 }
{
    if let TraceLine::Thread(thread) = line {
        let thread = weighed(alloc, load, thread)?;
        threads.push(thread).map_err(|_| AllocError)?;
    }
    Ok(())
}

/// The thread with the weight that counts.
fn weighed(alloc: Global, load: Load, thread: &Planned) -> Result<Planned, AllocError>
    ensures { IfOk result (λ planned. planned ≡ weighed load thread.now) }
{
    let bursts = Vec::from_slice(alloc, thread.bursts.as_slice())?;
    Ok(Planned {
        id: thread.id,
        core: thread.core,
        round: thread.round,
        weight: counted_weight(load, thread.weight),
        bursts: BurstList::from_vec(bursts),
    })
}

fn counted_weight(load: Load, weight: u32) -> u32
    ensures { result ≡ counted_weight load weight }
{
    match load {
        Load::Count => 1,
        Load::Weight { .. } => weight,
    }
}

/// The orders of rounds, in the order of their lines.
fn orders_of(alloc: Global, lines: &[Numbered]) -> Result<OrderList, AllocError>
    requires { length lines.now < 2 ^ 32 }
    ensures { IfOk result (λ orders. orders ≡ orders_of lines.now) }
{
    let mut orders = Vec::new(alloc);
    for numbered in lines {
        add_order(alloc, &mut orders, &numbered.line)?;
    }
    Ok(OrderList::from_vec(orders))
}

/// Adds the order that the line gives, if it gives one.
fn add_order(alloc: Global, orders: &mut Vec<OrderLine>, line: &TraceLine) -> Result<(), AllocError>
    ensures adds { OnOk result (orders.new.items ≡ orders.old.items ++ option_to_list (order_of line.now)) }
    ensures few { vec_len orders.new ≤ vec_len orders.old + 1 }
{
    if let TraceLine::Order(order) = line {
        let cores = CoreList::from_vec(Vec::from_slice(alloc, order.cores.as_slice())?);
        let round = order.round;
        orders
            .push(OrderLine { round, cores })
            .map_err(|_| AllocError)?;
    }
    Ok(())
}

/// The limit of entries that a line gives, or that of traces that give none.
fn limit_of(lines: &[Numbered]) -> u32
    ensures { result ≡ limit_of lines.now }
{
    for numbered in lines {
        if let Some(entries) = entries_in(&numbered.line) {
            return entries;
        }
    }
    DEFAULT_ENTRIES
}

fn entries_in(line: &TraceLine) -> Option<u32>
    ensures { result ≡ entries_in line.now }
{
    match line {
        TraceLine::Entries(number) => Some(*number),
        TraceLine::Cores(_)
        | TraceLine::Rounds(_)
        | TraceLine::Core(_)
        | TraceLine::Thread(_)
        | TraceLine::Order(_) => None,
    }
}

/// The number of rounds that the lines give.
fn rounds_of(lines: &[Numbered]) -> u32
    ensures { result ≡ rounds_of lines.now }
{
    match lines {
        [_first, second, ..] => rounds_in(&second.line),
        _ => 0,
    }
}

fn rounds_in(line: &TraceLine) -> u32
    ensures { result ≡ rounds_in line.now }
{
    match line {
        TraceLine::Rounds(number) => *number,
        TraceLine::Cores(_)
        | TraceLine::Entries(_)
        | TraceLine::Core(_)
        | TraceLine::Thread(_)
        | TraceLine::Order(_) => 0,
    }
}
