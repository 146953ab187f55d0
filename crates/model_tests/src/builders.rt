//! The policies of the worked rows as trees.

ghost use Rattle.std.specs.Prelude.{◌≡◌, ◌<◌, ◌≤◌, [], All, IfOk, map};
ghost use Rattle.policy_tree.specs.Meaning.{case_tree, meaning_of};
ghost use Rattle.policy_tree.specs.Trees.{cond_tree};
ghost use Rattle.policy_eval.specs.Fitting.{CoreFits};
ghost use Rattle.round_model.specs.Choices.{choice_of, values_in};
ghost use Rattle.fair_policy.specs.Forms.{whenever};
ghost use Rattle.model_tests.specs.Policies.{basic, gap_of, in_batches, seen_count, weighs_less, weighted};

use fair_policy::fair_policy;
use policy_eval::CoreValues;
use policy_tree::variables::{OTHER_LOAD, OTHER_NR, SELF_LOAD, SELF_NR, WEIGHT};
use policy_tree::{
    AttrList, Batch, Case, CaseList, Cmp, Cond, Expr, HandlerList, Load, Name, Order, PlaceRule,
    Policy, Put, SetList,
};
use round_model::choice;
use sched_base::{CoreId, MAX_ATTRIBUTES, MAX_THREADS};
use std::alloc::{AllocError, Global};

/// The basic policy: loads are counts, and a gap of two threads is enough.
pub fn basic_policy(alloc: Global) -> Result<Policy, AllocError>
    ensures { IfOk result (λ policy. meaning_of policy ≡ basic) }
{
    let handlers = default_handlers(alloc)?;
    let filter = gap(alloc, 2)?;
    let name = Name::from_vec(Vec::from_slice(alloc, b"basic")?);
    Ok(Policy {
        name,
        load: Load::Count,
        core_attrs: AttrList::from_vec(Vec::new(alloc)),
        thread_attrs: AttrList::from_vec(Vec::new(alloc)),
        place: PlaceRule::Here,
        elect: Order::from_vec(Vec::new(alloc)),
        handlers,
        filter,
        choose: Order::from_vec(Vec::new(alloc)),
        steal: Order::from_vec(Vec::new(alloc)),
        batch: None,
    })
}

/// The basic policy, whose steals go on while the victim has two threads more, and move so many at most.
pub fn batched_policy(alloc: Global, limit: u32) -> Result<Policy, AllocError>
    ensures { IfOk result (λ policy. meaning_of policy ≡ in_batches limit) }
{
    let mut policy = basic_policy(alloc)?;
    let cond = gap(alloc, 2)?;
    policy.batch = Some(Batch { cond, limit });
    Ok(policy)
}

/// The fair policy without attributes and placement. Its steals go on as long as the next thread weighs less than the
/// gap, and move so many at most.
pub fn weighted_policy(alloc: Global, limit: u32) -> Result<Policy, AllocError>
    ensures { IfOk result (λ policy. meaning_of policy ≡ weighted limit) }
{
    let mut policy = fair_policy(alloc)?;
    policy.thread_attrs = AttrList::from_vec(Vec::new(alloc));
    policy.place = PlaceRule::Here;
    policy.elect = Order::from_vec(Vec::new(alloc));
    policy.handlers = default_handlers(alloc)?;
    let cond = weighs_less(alloc)?;
    policy.batch = Some(Batch { cond, limit });
    Ok(policy)
}

/// The next thread weighs less than the victim's load is greater.
fn weighs_less(alloc: Global) -> Result<Cond, AllocError>
    ensures { IfOk result (λ condition. cond_tree condition ≡ weighs_less) }
{
    let victim = Box::new(alloc, Expr::Var(OTHER_LOAD))?;
    let own = Box::new(alloc, Expr::Var(SELF_LOAD))?;
    Ok(Cond::Test(Cmp::Gt, Expr::Sub(victim, own), Expr::Var(WEIGHT)))
}

/// The handlers of a policy that names none.
fn default_handlers(alloc: Global) -> Result<HandlerList, AllocError>
    ensures enqueue { IfOk result (λ h. map case_tree h.on_enqueue ≡ whenever [] Put.Queue) }
    ensures tick { IfOk result (λ h. map case_tree h.on_tick ≡ whenever [] Put.Keep) }
    ensures yields { IfOk result (λ h. map case_tree h.on_yield ≡ whenever [] Put.Queue) }
    ensures block { IfOk result (λ h. map case_tree h.on_block ≡ whenever [] Put.Block) }
{
    let on_enqueue = only_case(alloc, Put::Queue)?;
    let on_tick = only_case(alloc, Put::Keep)?;
    let on_yield = only_case(alloc, Put::Queue)?;
    let on_block = only_case(alloc, Put::Block)?;
    Ok(HandlerList::new(on_enqueue, on_tick, on_yield, on_block))
}

/// A case that always holds and assigns nothing.
fn only_case(alloc: Global, put: Put) -> Result<CaseList, AllocError>
    ensures { IfOk result (λ cases. map case_tree cases ≡ whenever [] put) }
{
    let mut cases = Vec::new(alloc);
    cases.push(Case {
        guard: Cond::Always,
        sets: SetList::from_vec(Vec::new(alloc)),
        put,
    })?;
    Ok(CaseList::from_vec(cases))
}

/// The victim has so many threads more.
fn gap(alloc: Global, least: u32) -> Result<Cond, AllocError>
    ensures { IfOk result (λ filter. cond_tree filter ≡ gap_of least) }
{
    let victim = Box::new(alloc, Expr::Var(OTHER_NR))?;
    let own = Box::new(alloc, Expr::Var(SELF_NR))?;
    Ok(Cond::Test(Cmp::Ge, Expr::Sub(victim, own), Expr::Num(i64::from(least))))
}

/// What is seen of a core with so many threads of weight 1, and without attributes.
pub fn counted(nr: u32) -> CoreValues
    requires { nr ≤ MAX_THREADS }
    ensures fits { CoreFits basic result }
    ensures seen { result ≡ seen_count nr }
{
    CoreValues {
        nr,
        load: u64::from(nr),
        consts: [0; MAX_ATTRIBUTES],
    }
}

/// What the core `own` chooses under the basic policy, where the three cores have so many threads.
pub fn basic_choice(policy: &Policy, counts: [u32; 3], own: CoreId) -> Option<CoreId>
    requires policy { meaning_of policy.now ≡ basic }
    requires counts { All (λ nr. nr ≤ MAX_THREADS) counts }
    requires own { own < 3 }
    ensures { result ≡ choice_of basic 3 (values_in (map seen_count counts)) own }
{
    let values = [counted(counts[0]), counted(counts[1]), counted(counts[2])];
    choice(policy, &values, own)
}
