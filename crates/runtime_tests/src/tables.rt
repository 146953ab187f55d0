//! The shared table with its opening seat alone: two cores, and the beginning of the first round.

ghost use Rattle.std.specs.Prelude.{◌≡◌, ◌<◌, IfOk};
ghost use Rattle.std.specs.Thread.{IsSync};
ghost use Rattle.policy_tree.specs.Meaning.{meaning_of};
ghost use Rattle.history_merge.specs.Merged.{AreLogsOfFew};
ghost use Rattle.model_tests.specs.Plans.{two_cores as two_cores_plan};
ghost use Rattle.model_tests.specs.Policies.{basic};
ghost use Rattle.table_players.specs.Tables.{IsFree, IsUnbegun};
ghost use Rattle.runtime_tests.specs.Tables.{IsOfTwo};

use crate::finding::{Finding, all_hold};
use crate::merges::{has_signs, signs};
use core_state::Closed;
use core_table::{Read, Seat, Table, TableFault};
use history_merge::{HistoryMemory, merge};
use model_tests::builders::basic_policy;
use model_tests::plans::two_cores;
use policy_tree::Policy;
use round_model::Plan;
use sched_base::{CoreId, MAX_ATTRIBUTES, Pos};
use std::alloc::Global;
use std::sync::Wait;
use std::thread::{Threads, join};
use table_players::games::closed;

/// The table and its opening seat.
fn opened(alloc: Global, policy: &Policy, plan: &Plan) -> Result<(Table, Seat), TableFault>
    requires policy { meaning_of policy.now ≡ basic }
    requires plan { plan.now ≡ two_cores_plan }
    ensures table { IfOk result (λ t. IsOfTwo t.0) }
    ensures seat { IfOk result (λ t. IsUnbegun t.0 t.1) }
{
    let (table, seat) = Table::open(alloc, policy, plan)?;
    Ok((table, seat))
}

/// The constants of both cores.
fn both_consts(table: &Table) -> [[i32; MAX_ATTRIBUTES]; 2]
    requires { IsOfTwo table.now }
{
    [*table.consts(0), *table.consts(1)]
}

/// What the seat sees of the core before the first round.
fn look_early(table: &Table, seat: &mut Seat, core: CoreId) -> Read
    requires table { IsOfTwo table.now }
    requires seat { IsUnbegun table.now seat.old }
    requires core { core < 2 }
    ensures seat { IsUnbegun table.now seat.new }
{
    table.read(seat, core)
}

/// The position at which the first round begins.
fn first_round<R: Wait>(rt: &R, table: &Table, seat: &mut Seat) -> Pos
    requires table { IsOfTwo table.now }
    requires seat { IsUnbegun table.now seat.old }
    ensures first { result ≡ 0 }
    ensures seat { IsFree table.now seat.new }
{
    table.draw_round(rt, seat, 1)
}

/// What the seat sees of the core.
fn look(table: &Table, seat: &mut Seat, core: CoreId) -> Read
    requires table { IsOfTwo table.now }
    requires seat { IsFree table.now seat.old }
    requires core { core < 2 }
    ensures seat { IsFree table.now seat.new }
{
    table.read(seat, core)
}

/// Takes the core, publishes it as it is, and lets it go.
fn touch<R: Wait>(rt: &R, table: &Table, seat: &mut Seat, core: CoreId)
    requires table { IsOfTwo table.now }
    requires seat { IsFree table.now seat.old }
    requires core { core < 2 }
    ensures seat { IsFree table.now seat.new }
{
    let held = table.hold(rt, seat, core);
    table.publish(seat, &held);
    table.release(seat, held);
}

/// The same by a seat that is handed over and comes back.
fn touched<R: Wait>(rt: &R, table: &Table, mut seat: Seat, core: CoreId) -> Seat
    requires table { IsOfTwo table.now }
    requires seat { IsFree table.now seat }
    requires core { core < 2 }
    ensures { IsFree table.now result }
{
    touch(rt, table, &mut seat, core);
    seat
}

/// The signs of the entries, back from their logs.
fn merged(alloc: Global, closed: &Closed) -> Result<Vec<u8>, HistoryMemory>
    requires { AreLogsOfFew closed.now }
{
    let history = merge(alloc, closed)?;
    Ok(signs(alloc, history.as_slice())?)
}

/// Takes a core in a thread of its own, beside one that asks the table for its size.
fn touched_apart<R: Threads + Wait + Sync>(rt: &R, table: &Table, seat: Seat) -> (Seat, u32)
    requires table { IsOfTwo table.now }
    requires seat { IsFree table.now seat }
    ensures { IsFree table.now result.0 }
{
    join(
        rt,
        || -> Seat
            requires { IsSync R.row × IsOfTwo table.now × IsFree table.now seat }
            ensures { IsFree table.entry.now result }
        { touched(rt, table, seat, 1) },
        || -> u32 { table.cores() },
    )
}

/// The table and its seat go to another thread, which takes a core, and come back.
fn sent<R: Threads + Wait + Sync>(rt: &R, table: Table, seat: Seat) -> (Table, Seat)
    requires table { IsOfTwo table }
    requires seat { IsFree table seat }
    ensures table { IsOfTwo result.0 }
    ensures seat { IsFree result.0 result.1 }
{
    let (back, _nothing) = join(
        rt,
        || -> (Table, Seat)
            requires { IsSync R.row × IsOfTwo table × IsFree table seat }
            ensures { IsOfTwo result.0 × IsFree result.0 result.1 }
        {
            let seat = touched(rt, &table, seat, 0);
            (table, seat)
        },
        || -> u32 { 0 },
    );
    back
}

/// What is seen of a core that no thread has come to, from that position on.
fn without_threads(at: Pos) -> Read {
    Read { at, nr: 0, load: 0 }
}

/// The opening seat alone, and the first round.
pub(crate) fn begins_its_first_round<R: Wait>(rt: &R, alloc: Global) -> Option<Finding> {
    let Ok(policy) = basic_policy(alloc) else {
        return None;
    };
    let Ok(plan) = two_cores(alloc) else {
        return None;
    };
    begun_and_closed(rt, alloc, &policy, &plan)
}

/// The same at a table of these.
fn begun_and_closed<R: Wait>(rt: &R, alloc: Global, policy: &Policy, plan: &Plan) -> Option<Finding>
    requires policy { meaning_of policy.now ≡ basic }
    requires plan { plan.now ≡ two_cores_plan }
{
    let Ok((table, mut seat)) = opened(alloc, policy, plan) else {
        return None;
    };
    let found = begun(rt, &table, &mut seat).and(touched_and_seen(rt, &table, &mut seat));
    Some(found.and(one_round(alloc, table, seat)?))
}

/// The round begins.
fn begun<R: Wait>(rt: &R, table: &Table, seat: &mut Seat) -> Finding
    requires table { IsOfTwo table.now }
    requires seat { IsUnbegun table.now seat.old }
    ensures { IsFree table.now seat.new }
{
    let consts = both_consts(table);
    let early = look_early(table, seat, 1);
    let first = first_round(rt, table, seat);
    let begun = look(table, seat, 1);
    all_hold(&[
        ("there are two cores", table.cores() == 2),
        (
            "they have no attributes",
            consts == [[0; MAX_ATTRIBUTES]; 2],
        ),
        (
            "nothing is seen before the first round",
            early == without_threads(0),
        ),
        ("the round begins at 0", first == 0),
        (
            "a core is seen from the round's start on",
            begun == without_threads(1),
        ),
    ])
}

/// The round has begun, and a core is taken.
fn touched_and_seen<R: Wait>(rt: &R, table: &Table, seat: &mut Seat) -> Finding
    requires table { IsOfTwo table.now }
    requires seat { IsFree table.now seat.old }
    ensures { IsFree table.now seat.new }
{
    touch(rt, table, seat, 0);
    let other = look(table, seat, 1);
    let own = look(table, seat, 0);
    all_hold(&[
        (
            "the other core is seen as it was",
            other == without_threads(1),
        ),
        ("no entry has touched the core", own == without_threads(1)),
    ])
}

/// Whether the history is one round without a step.
fn one_round(alloc: Global, table: Table, seat: Seat) -> Option<Finding>
    requires { IsFree table seat }
{
    let Ok(text) = merged(alloc, &closed(table, seat)) else {
        return None;
    };
    Some(has_signs(&text, b"r1"))
}

/// The seat goes to a thread, and then the table and the seat.
pub(crate) fn go_to_threads<R: Threads + Wait + Sync>(rt: &R, alloc: Global) -> Option<Finding> {
    let Ok(policy) = basic_policy(alloc) else {
        return None;
    };
    let Ok(plan) = two_cores(alloc) else {
        return None;
    };
    apart(rt, alloc, &policy, &plan)
}

/// The same at a table of these.
fn apart<R: Threads + Wait + Sync>(
    rt: &R,
    alloc: Global,
    policy: &Policy,
    plan: &Plan,
) -> Option<Finding>
    requires policy { meaning_of policy.now ≡ basic }
    requires plan { plan.now ≡ two_cores_plan }
{
    let Ok((table, mut seat)) = opened(alloc, policy, plan) else {
        return None;
    };
    first_round(rt, &table, &mut seat);
    let (mut seat, cores) = touched_apart(rt, &table, seat);
    let back = look(&table, &mut seat, 1);
    let (table, mut seat) = sent(rt, table, seat);
    let again = look(&table, &mut seat, 0);
    let found = all_hold(&[
        ("the other thread finds two cores", cores == 2),
        (
            "a core is seen as the thread left it",
            back == without_threads(1),
        ),
        ("nothing touched either core", again == without_threads(1)),
    ]);
    Some(found.and(one_round(alloc, table, seat)?))
}
