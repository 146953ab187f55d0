//! Which core is chosen to steal from, and on which core a thread is placed.

ghost use Rattle.std.specs.Prelude.{◌≡◌, ◌<◌, ◌≤◌, All, IfSome, Some, int_lt, length};
ghost use Rattle.policy_tree.specs.Meaning.{meaning_of};
ghost use Rattle.policy_tree.specs.Trees.{expr_tree};
ghost use Rattle.policy_eval.specs.Fitting.{CoreFits};
ghost use Rattle.policy_eval.specs.Evaluable.{IsEvaluable};
ghost use Rattle.policy_eval.specs.Orders.{best_of};
ghost use Rattle.policy_eval.specs.Resolved.{IsResolved};
ghost use Rattle.policy_eval.specs.Sights.{core_values, own_values};
ghost use Rattle.policy_eval.specs.Values.{value_of};
ghost use Rattle.std.specs.List.{range_with_len};
ghost use Rattle.round_model.specs.Choices.{choice_of, is_candidate as may_be_victim, IsSeenWidely, is_less};
ghost use Rattle.round_model.specs.Choices.{prefers as prefers_core, target_of, values_in};

use policy_eval::{CoreValues, Env, better, holds, value};
use policy_tree::{Expr, PlaceRule, Policy};
use sched_base::{CoreId, MAX_CORES};

/// The choice of the core `own`, from what it read of all cores: the best of the other cores for which
/// the filter holds, of equals the lowest number. `None` where the filter holds for no other.
pub fn choice(policy: &Policy, values: &[CoreValues], own: CoreId) -> Option<CoreId>
    requires policy { IsResolved (meaning_of policy.now) }
    requires values { All (CoreFits (meaning_of policy.now)) values.now }
    requires few { length values.now ≤ MAX_CORES }
    requires own { own < length values.now }
    ensures choice { result ≡ choice_of (meaning_of policy.now) (length values.now) (values_in values.now) own }
    ensures there { IfSome result (λ core. core < length values.now) }
{
    let alone = Env::of_own(&values[own as usize]);
    let mut chosen = None;
    for at in (0..values.len()).rev() {
        let core = at as CoreId;
        if is_candidate(policy, values, own, &alone, core) {
            chosen = Some(match chosen {
                Some(later) if prefers(policy, values, own, &alone, later, core) => later,
                _ => core,
            });
        }
    }
    chosen
}

/// Whether the core `own`, of which `alone` tells, may steal from `core`.
fn is_candidate(
    policy: &Policy,
    values: &[CoreValues],
    own: CoreId,
    alone: &Env,
    core: CoreId,
) -> bool
    requires policy { IsResolved (meaning_of policy.now) }
    requires values { All (CoreFits (meaning_of policy.now)) values.now }
    requires own { own < length values.now }
    requires alone { alone.now.vals ≡ own_values (values_in values.now own) }
    requires core { core < length values.now }
    ensures { result ≡ may_be_victim (meaning_of policy.now) (values_in values.now) own core }
{
    if own == core {
        return false;
    }
    holds(&policy.filter, &alone.with_victim(&values[core as usize]))
}

/// Whether the core `own`, of which `alone` tells, prefers the core `first` to the core `second`.
fn prefers(
    policy: &Policy,
    values: &[CoreValues],
    own: CoreId,
    alone: &Env,
    first: CoreId,
    second: CoreId,
) -> bool
    requires policy { IsResolved (meaning_of policy.now) }
    requires values { All (CoreFits (meaning_of policy.now)) values.now }
    requires own { own < length values.now }
    requires alone { alone.now.vals ≡ own_values (values_in values.now own) }
    requires first { first < length values.now }
    requires second { second < length values.now }
    ensures { result ≡ prefers_core (meaning_of policy.now) (values_in values.now) own first second }
{
    better(
        &policy.choose,
        &alone.with_victim(&values[first as usize]),
        &alone.with_victim(&values[second as usize]),
    )
}

/// The core on which `own` places a thread, from what it read of all cores: itself, or the core with the
/// least value, of equals the lowest number.
pub fn target(policy: &Policy, values: &[CoreValues], own: CoreId) -> CoreId
    requires policy { IsResolved (meaning_of policy.now) }
    requires values { All (CoreFits (meaning_of policy.now)) values.now }
    requires few { length values.now ≤ MAX_CORES }
    requires own { own < length values.now }
    ensures { target_of (meaning_of policy.now) (length values.now) (values_in values.now) own ≡ Some result }
{
    match &policy.place {
        PlaceRule::Here => own,
        PlaceRule::Least(expr) => least(expr, values),
    }
}

/// The core with the least value of the expression, of equals the lowest number.
fn least(expr: &Expr, values: &[CoreValues]) -> CoreId
    requires expr { IsEvaluable (expr_tree expr.now) }
    requires values { All IsSeenWidely values.now }
    requires some { 1 ≤ length values.now }
    requires few { length values.now ≤ MAX_CORES }
    ensures { best_of (is_less (expr_tree expr.now) (values_in values.now))
        (range_with_len 0 (length values.now)) ≡ Some result }
{
    let last = values.len() as CoreId - 1;
    let mut least = last;
    for core in (0..last).rev() {
        if !is_below(expr, &values[least as usize], &values[core as usize]) {
            least = core;
        }
    }
    least
}

/// Whether the value of the expression at the first core is less than at the second.
fn is_below(expr: &Expr, first: &CoreValues, second: &CoreValues) -> bool
    requires expr { IsEvaluable (expr_tree expr.now) }
    requires first { IsSeenWidely first.now }
    requires second { IsSeenWidely second.now }
    ensures { result ≡ int_lt
        (value_of (core_values first.now) (expr_tree expr.now))
        (value_of (core_values second.now) (expr_tree expr.now)) }
{
    value(expr, &Env::of_core(first)) < value(expr, &Env::of_core(second))
}
