//! What a statement on a pair of cores supposes, as a condition.

ghost use Rattle.std.specs.Prelude.{◌≡◌, IfOk};
ghost use Rattle.policy_tree.specs.declared.trees.Cmp.TheVariants as cmp;
ghost use Rattle.policy_tree.specs.declared.variables.TheConstants.{OTHER_NR};
ghost use Rattle.policy_tree.specs.Trees.{both, cond_tree, expr_tree, plus, test, times, variable};
ghost use Rattle.policy_eval.specs.Ranges.{greatest_weight, least_weight};
ghost use Rattle.obligations.specs.Refutations.{busier_beside_two, busy_beside_two, cores_fit, gap_is_small, gap_is_wide};
ghost use Rattle.obligations.specs.Refutations.{has_thread, idle_and_overloaded, load_fits, victim_has_one};
ghost use Rattle.obligations.specs.Refutations.{victim_has_thread, whole};

use policy_tree::variables::{OTHER_LOAD, OTHER_NR, SELF_LOAD, SELF_NR, WEIGHT};
use policy_tree::{Cmp, Cond, Expr, Load};
use sched_base::MAX_LOAD;
use std::alloc::{AllocError, Global};

/// An idle core, and an overloaded one.
pub fn idle_beside_overloaded(alloc: Global, load: Load) -> Result<Cond, AllocError>
    ensures { IfOk result (λ c. cond_tree c ≡ both (cores_fit load) idle_and_overloaded) }
{
    let idle = Cond::Test(Cmp::Le, Expr::Var(SELF_NR), Expr::Num(0));
    let overloaded = Cond::Test(Cmp::Ge, Expr::Var(OTHER_NR), Expr::Num(2));
    let rest = both(alloc, idle, overloaded)?;
    both(alloc, cores_fit(alloc, load)?, rest)
}

/// A core that isn't overloaded, as the victim.
pub fn victim_of_one(alloc: Global, load: Load) -> Result<Cond, AllocError>
    ensures { IfOk result (λ c. cond_tree c ≡ both (cores_fit load) victim_has_one) }
{
    let few = Cond::Test(Cmp::Le, Expr::Var(OTHER_NR), Expr::Num(1));
    both(alloc, cores_fit(alloc, load)?, few)
}

/// A victim that can have the thread queued, and a gap that isn't greater than its weight.
pub fn thread_and_small_gap(alloc: Global, load: Load) -> Result<Cond, AllocError>
    ensures { IfOk result (λ c. cond_tree c ≡ both (cores_fit load) (both (has_thread load) gap_is_small)) }
{
    let rest = queued_over_small_gap(alloc, load)?;
    both(alloc, cores_fit(alloc, load)?, rest)
}

/// A victim with a thread that can be the one that is next, and a gap that isn't greater than its weight.
pub fn next_and_small_gap(alloc: Global, load: Load) -> Result<Cond, AllocError>
    ensures { IfOk result (λ c. cond_tree c ≡
        both (cores_fit load) (both victim_has_thread (both (has_thread load) gap_is_small))) }
{
    let some = Cond::Test(Cmp::Ge, Expr::Var(OTHER_NR), Expr::Num(1));
    let queued = queued_over_small_gap(alloc, load)?;
    let rest = both(alloc, some, queued)?;
    both(alloc, cores_fit(alloc, load)?, rest)
}

/// A victim with at most two threads, and a thief that has one at least.
pub fn busy_beside_two(alloc: Global, load: Load) -> Result<Cond, AllocError>
    ensures { IfOk result (λ c. cond_tree c ≡ both (cores_fit load) busy_beside_two) }
{
    let busy = Cond::Test(Cmp::Ge, Expr::Var(SELF_NR), Expr::Num(1));
    let rest = both(alloc, at_most_two(), busy)?;
    both(alloc, cores_fit(alloc, load)?, rest)
}

/// A victim with one thread or two, and a thief that has two at least.
pub fn busier_beside_two(alloc: Global, load: Load) -> Result<Cond, AllocError>
    ensures { IfOk result (λ c. cond_tree c ≡ both (cores_fit load) busier_beside_two) }
{
    let some = Cond::Test(Cmp::Ge, Expr::Var(OTHER_NR), Expr::Num(1));
    let busier = Cond::Test(Cmp::Ge, Expr::Var(SELF_NR), Expr::Num(2));
    let counts = both(alloc, at_most_two(), busier)?;
    let rest = both(alloc, some, counts)?;
    both(alloc, cores_fit(alloc, load)?, rest)
}

/// A victim whose load is greater by more than the gap.
pub fn wide_gap(alloc: Global, load: Load, gap: u32) -> Result<Cond, AllocError>
    ensures { IfOk result (λ c. cond_tree c ≡ both (cores_fit load) (gap_is_wide gap)) }
{
    let wider = Expr::Num(i64::from(gap.min(MAX_LOAD)) + 1);
    let past = sum(alloc, Expr::Var(SELF_LOAD), wider)?;
    let wide = Cond::Test(Cmp::Ge, Expr::Var(OTHER_LOAD), past);
    both(alloc, cores_fit(alloc, load)?, wide)
}

fn at_most_two() -> Cond
    ensures { cond_tree result ≡ test cmp.Le (variable OTHER_NR) (whole 2) }
{
    Cond::Test(Cmp::Le, Expr::Var(OTHER_NR), Expr::Num(2))
}

fn queued_over_small_gap(alloc: Global, load: Load) -> Result<Cond, AllocError>
    ensures { IfOk result (λ c. cond_tree c ≡ both (has_thread load) gap_is_small) }
{
    let gap = gap_is_small(alloc)?;
    both(alloc, has_thread(alloc, load)?, gap)
}

fn has_thread(alloc: Global, load: Load) -> Result<Cond, AllocError>
    ensures { IfOk result (λ c. cond_tree c ≡ has_thread load) }
{
    let others = scaled(alloc, least_weight(load), OTHER_NR)?;
    let queued = sum(alloc, others, Expr::Var(WEIGHT))?;
    let least = Expr::Num(i64::from(least_weight(load)));
    let room = sum(alloc, Expr::Var(OTHER_LOAD), least)?;
    Ok(Cond::Test(Cmp::Le, queued, room))
}

fn gap_is_small(alloc: Global) -> Result<Cond, AllocError>
    ensures { IfOk result (λ c. cond_tree c ≡ gap_is_small) }
{
    let after = sum(alloc, Expr::Var(SELF_LOAD), Expr::Var(WEIGHT))?;
    Ok(Cond::Test(Cmp::Le, Expr::Var(OTHER_LOAD), after))
}

fn cores_fit(alloc: Global, load: Load) -> Result<Cond, AllocError>
    ensures { IfOk result (λ c. cond_tree c ≡ cores_fit load) }
{
    let own = load_fits(alloc, load, SELF_NR, SELF_LOAD)?;
    both(alloc, own, load_fits(alloc, load, OTHER_NR, OTHER_LOAD)?)
}

fn load_fits(alloc: Global, load: Load, nr: u32, sum: u32) -> Result<Cond, AllocError>
    ensures { IfOk result (λ c. cond_tree c ≡ load_fits load nr sum) }
{
    let least = scaled(alloc, least_weight(load), nr)?;
    let greatest = scaled(alloc, greatest_weight(load), nr)?;
    both(
        alloc,
        Cond::Test(Cmp::Le, least, Expr::Var(sum)),
        Cond::Test(Cmp::Le, Expr::Var(sum), greatest),
    )
}

/// The least weight of a thread.
pub fn least_weight(load: Load) -> u32
    ensures { result ≡ least_weight load }
{
    match load {
        Load::Count => 1,
        Load::Weight { lo, .. } => lo,
    }
}

/// The greatest weight of a thread.
pub fn greatest_weight(load: Load) -> u32
    ensures { result ≡ greatest_weight load }
{
    match load {
        Load::Count => 1,
        Load::Weight { hi, .. } => hi,
    }
}

fn both(alloc: Global, left: Cond, right: Cond) -> Result<Cond, AllocError>
    ensures { IfOk result (λ c. cond_tree c ≡ both (cond_tree left) (cond_tree right)) }
{
    let left = Box::new(alloc, left)?;
    Ok(Cond::And(left, Box::new(alloc, right)?))
}

fn sum(alloc: Global, left: Expr, right: Expr) -> Result<Expr, AllocError>
    ensures { IfOk result (λ e. expr_tree e ≡ plus (expr_tree left) (expr_tree right)) }
{
    let left = Box::new(alloc, left)?;
    Ok(Expr::Add(left, Box::new(alloc, right)?))
}

fn scaled(alloc: Global, by: u32, at: u32) -> Result<Expr, AllocError>
    ensures { IfOk result (λ e. expr_tree e ≡ times (whole by) (variable at)) }
{
    let by = Box::new(alloc, Expr::Num(i64::from(by)))?;
    Ok(Expr::Mul(by, Box::new(alloc, Expr::Var(at))?))
}
