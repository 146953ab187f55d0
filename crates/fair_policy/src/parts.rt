//! The parts of the policy `fair`.

ghost use Rattle.std.specs.Prelude.{◌≡◌, [], ◌∷◌, IfOk, map};
ghost use Rattle.policy_tree.specs.Meaning.{case_tree, handler_trees, key_tree, order_tree, set_tree};
ghost use Rattle.policy_tree.specs.Trees.{cond_tree};
ghost use Rattle.fair_policy.specs.Fair.{counted_use, fair_attributes, fair_filter, fair_handlers, gap_is_wide};
ghost use Rattle.fair_policy.specs.Fair.{idle_sees_two};
ghost use Rattle.fair_policy.specs.Forms.{whenever};

use policy_tree::variables::{OTHER_LOAD, OTHER_NR, SELF_LOAD, SELF_NR, THREAD_ATTRIBUTES};
use policy_tree::{
    Attr, AttrList, Case, CaseList, Cmp, Cond, Expr, HandlerList, Key, Name, Order, Put, Set,
    SetList,
};
use std::alloc::{AllocError, Global};

/// The attribute `used` of threads.
pub(crate) fn attributes(alloc: Global) -> Result<AttrList, AllocError>
    ensures { IfOk result (λ attributes. attributes ≡ fair_attributes) }
{
    let name = Name::from_vec(Vec::from_slice(alloc, b"used")?);
    let mut attributes = Vec::new(alloc);
    attributes.push(Attr {
        name,
        lo: 0,
        hi: 1000,
        start: 0,
    })?;
    Ok(AttrList::from_vec(attributes))
}

/// The order of one key.
pub(crate) fn by_key(alloc: Global, key: Key) -> Result<Order, AllocError>
    ensures { IfOk result (λ order. order_tree order ≡ key_tree key ∷ []) }
{
    let mut keys = Vec::new(alloc);
    keys.push(key)?;
    Ok(Order::from_vec(keys))
}

/// The handlers: a tick counts the use of a thread and queues it, the other events have their defaults.
pub(crate) fn handlers(alloc: Global) -> Result<HandlerList, AllocError>
    ensures { IfOk result (λ handlers. handler_trees handlers ≡ fair_handlers) }
{
    let on_enqueue = only_case(alloc, SetList::from_vec(Vec::new(alloc)), Put::Queue)?;
    let on_tick = only_case(alloc, counted_use(alloc)?, Put::Queue)?;
    let on_yield = only_case(alloc, SetList::from_vec(Vec::new(alloc)), Put::Queue)?;
    let on_block = only_case(alloc, SetList::from_vec(Vec::new(alloc)), Put::Block)?;
    Ok(HandlerList::new(on_enqueue, on_tick, on_yield, on_block))
}

/// A case that always holds, and carries these assignments out.
fn only_case(alloc: Global, sets: SetList, put: Put) -> Result<CaseList, AllocError>
    ensures { IfOk result (λ cases. map case_tree cases ≡ whenever (map set_tree sets) put) }
{
    let mut cases = Vec::new(alloc);
    cases.push(Case {
        guard: Cond::Always,
        sets,
        put,
    })?;
    Ok(CaseList::from_vec(cases))
}

/// The assignment that counts a unit of use.
fn counted_use(alloc: Global) -> Result<SetList, AllocError>
    ensures { IfOk result (λ sets. map set_tree sets ≡ counted_use) }
{
    let used = Box::new(alloc, Expr::Var(THREAD_ATTRIBUTES))?;
    let one = Box::new(alloc, Expr::Num(1))?;
    let mut sets = Vec::new(alloc);
    sets.push(Set {
        attr: 0,
        expr: Expr::Add(used, one),
    })?;
    Ok(SetList::from_vec(sets))
}

/// The filter: an idle core and a core with two threads, or a wide gap.
pub(crate) fn filter(alloc: Global) -> Result<Cond, AllocError>
    ensures { IfOk result (λ filter. cond_tree filter ≡ fair_filter) }
{
    let idle = Box::new(alloc, idle_sees_two(alloc)?)?;
    let wide = Box::new(alloc, gap_is_wide(alloc)?)?;
    Ok(Cond::Or(idle, wide))
}

/// The acting core has no thread, and the other one two or more.
fn idle_sees_two(alloc: Global) -> Result<Cond, AllocError>
    ensures { IfOk result (λ condition. cond_tree condition ≡ idle_sees_two) }
{
    let idle = Cond::Test(Cmp::Eq, Expr::Var(SELF_NR), Expr::Num(0));
    let two = Cond::Test(Cmp::Ge, Expr::Var(OTHER_NR), Expr::Num(2));
    let idle = Box::new(alloc, idle)?;
    Ok(Cond::And(idle, Box::new(alloc, two)?))
}

/// The other core's load is greater by more than the greatest weight.
fn gap_is_wide(alloc: Global) -> Result<Cond, AllocError>
    ensures { IfOk result (λ condition. cond_tree condition ≡ gap_is_wide) }
{
    let other = Box::new(alloc, Expr::Var(OTHER_LOAD))?;
    let own = Box::new(alloc, Expr::Var(SELF_LOAD))?;
    Ok(Cond::Test(Cmp::Gt, Expr::Sub(other, own), Expr::Num(8)))
}
