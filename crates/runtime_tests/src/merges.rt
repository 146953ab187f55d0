//! Logs that are merged.

ghost use Rattle.std.specs.Prelude.{◌≡◌, [], ◌∷◌, IfOk};
ghost use Rattle.policy_tree.specs.Meaning.{meaning_of};
ghost use Rattle.round_model.specs.declared.entry.Entry.TheVariants as model_entry;
ghost use Rattle.model_tests.specs.Policies.{basic};
ghost use Rattle.runtime_tests.specs.Merged.{first_log, no_logs, second_log, two_logs, with_log};
ghost use Rattle.runtime_tests.specs.Stages.{empty, one_blocks};

use crate::cores::{opened, plan_of_two};
use crate::finding::{Finding, all_hold};
use core_state::{Closed, CoreState, Logged, StateMemory};
use history_merge::{HistoryMemory, merge};
use model_tests::builders::basic_policy;
use policy_tree::Policy;
use round_model::{Did, Entry, Plan};
use sched_base::{Reads, Stolen};
use std::alloc::{AllocError, Global};

/// Core 1 takes thread 1 of core 0.
fn steal() -> Entry
    ensures { result ≡ model_entry.Steal 1 0 (1 ∷ []) [] }
{
    Entry::Steal {
        by: 1,
        from: 0,
        threads: Stolen::of(1),
        reads: Reads::empty(),
    }
}

/// The entries that touch core 0.
fn first_logged(state: &mut CoreState)
    requires { state.old ≡ empty }
    ensures { state.new ≡ with_log first_log }
{
    let reads = Reads::empty();
    let enter = Entry::Enter {
        thread: 1,
        by: 0,
        at: 0,
        reads,
    };
    state.log(1, enter);
    state.log(3, steal());
    state.log(4, Entry::Pass { by: 0, reads });
}

/// The entries that touch core 1.
fn second_logged(state: &mut CoreState)
    requires { state.old ≡ empty }
    ensures { state.new ≡ with_log second_log }
{
    let idle = Entry::Work {
        by: 1,
        did: Did::Nothing,
    };
    state.log(2, idle);
    state.log(3, steal());
}

/// Two cores with these logs.
fn two_cores(alloc: Global, policy: &Policy, plan: &Plan) -> Result<Vec<CoreState>, StateMemory>
    requires policy { meaning_of policy.now ≡ basic }
    requires plan { plan.now ≡ one_blocks }
    ensures { IfOk result (λ cores. cores.items ≡ two_logs.cores) }
{
    let mut cores = Vec::with_capacity(alloc, 2)?;
    let mut first = opened(alloc, policy, plan, 0)?;
    first_logged(&mut first);
    cores.push_reserved(first);
    let mut second = opened(alloc, policy, plan, 1)?;
    second_logged(&mut second);
    cores.push_reserved(second);
    Ok(cores)
}

/// The log of two rounds.
fn two_rounds(alloc: Global) -> Result<Vec<Logged>, StateMemory>
    ensures { IfOk result (λ rounds. rounds.items ≡ two_logs.rounds) }
{
    let first = Entry::Round { number: 1 };
    let second = Entry::Round { number: 2 };
    let mut rounds = Vec::with_capacity(alloc, 2)?;
    rounds.push_reserved(Logged {
        at: 0,
        entry: first,
    });
    rounds.push_reserved(Logged {
        at: 5,
        entry: second,
    });
    Ok(rounds)
}

/// Two cores with these logs, and the log of two rounds.
fn two_closed(alloc: Global, policy: &Policy, plan: &Plan) -> Result<Closed, StateMemory>
    requires policy { meaning_of policy.now ≡ basic }
    requires plan { plan.now ≡ one_blocks }
    ensures { IfOk result (λ closed. closed ≡ two_logs) }
{
    let rounds = two_rounds(alloc)?;
    let cores = two_cores(alloc, policy, plan)?;
    Ok(Closed::new(cores, rounds))
}

/// No core and no round.
fn nothing(alloc: Global) -> Closed
    ensures { result ≡ no_logs }
{
    Closed::new(Vec::new(alloc), Vec::new(alloc))
}

/// The letter of the entry's kind, and the number of its round or of the core that acts.
fn sign(entry: &Entry) -> [u8; 2] {
    match entry {
        Entry::Round { number } => [b'r', digit(*number)],
        Entry::Enter { by, .. } => [b'e', digit(*by)],
        Entry::Wake { by, .. } => [b'k', digit(*by)],
        Entry::Work { by, .. } => [b'w', digit(*by)],
        Entry::Steal { by, .. } => [b's', digit(*by)],
        Entry::Fail { by, .. } => [b'f', digit(*by)],
        Entry::Pass { by, .. } => [b'p', digit(*by)],
    }
}

/// The last digit.
fn digit(number: u32) -> u8 {
    b'0' + (number % 10) as u8
}

/// The signs of the entries.
pub(crate) fn signs(alloc: Global, entries: &[Entry]) -> Result<Vec<u8>, AllocError> {
    let mut text = Vec::new(alloc);
    for entry in entries {
        let [kind, number] = sign(entry);
        text.push(kind)?;
        text.push(number)?;
    }
    Ok(text)
}

/// The signs of the history with a steal, back from its logs.
fn merged(alloc: Global, closed: &Closed) -> Result<Vec<u8>, HistoryMemory>
    requires { closed.now ≡ two_logs }
{
    let history = merge(alloc, closed)?;
    Ok(signs(alloc, history.as_slice())?)
}

/// The signs of the history of no logs.
fn merged_of_nothing(alloc: Global) -> Result<Vec<u8>, HistoryMemory> {
    let history = merge(alloc, &nothing(alloc))?;
    Ok(signs(alloc, history.as_slice())?)
}

/// Two logs that share a steal.
pub(crate) fn with_a_steal(alloc: Global) -> Option<Finding> {
    let Ok(policy) = basic_policy(alloc) else {
        return None;
    };
    let Ok(plan) = plan_of_two(alloc) else {
        return None;
    };
    of_two_logs(alloc, &policy, &plan)
}

/// The same of the cores that have these logs.
fn of_two_logs(alloc: Global, policy: &Policy, plan: &Plan) -> Option<Finding>
    requires policy { meaning_of policy.now ≡ basic }
    requires plan { plan.now ≡ one_blocks }
{
    let Ok(closed) = two_closed(alloc, policy, plan) else {
        return None;
    };
    found_in(alloc, &closed)
}

/// The same of the logs.
fn found_in(alloc: Global, closed: &Closed) -> Option<Finding>
    requires { closed.now ≡ two_logs }
{
    let Ok(text) = merged(alloc, closed) else {
        return None;
    };
    Some(has_signs(&text, b"r1e0w1s1p0r2"))
}

/// No logs.
pub(crate) fn of_nothing(alloc: Global) -> Option<Finding> {
    let Ok(text) = merged_of_nothing(alloc) else {
        return None;
    };
    Some(has_signs(&text, b""))
}

/// Whether these are the signs.
pub(crate) fn has_signs(text: &Vec<u8>, signs: &[u8]) -> Finding {
    all_hold(&[("the entries come in this order", text.as_slice() == signs)])
}
