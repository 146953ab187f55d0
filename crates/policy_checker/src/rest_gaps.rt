//! The least gap between two loads that a policy's filter leaves.

ghost use Rattle.std.specs.Prelude.{◌≡◌, ◌<◌, IfOk, IsFalse, None};
ghost use Rattle.policy_tree.specs.Meaning.{meaning_of};
ghost use Rattle.policy_eval.specs.Obligations.{RestGap, rest_gap};
ghost use Rattle.policy_eval.specs.Resolved.{IsResolved};
ghost use Rattle.obligations.specs.Counts.{first_crowded};
ghost use Rattle.obligations.specs.DifferencePolicies.{ComparesDifferences};
ghost use Rattle.obligations.specs.Names.{ob_names};
ghost use Rattle.policy_checker.specs.LastThreads.{IsOneOf};
ghost use Rattle.policy_checker.specs.RestGaps.{IsAsked, IsKnownGap, IsLeastGap, IsToldOf, IsWider};
ghost use Rattle.policy_checker.specs.Verdicts.{is_left};

use crate::answer::ObAnswer;
use crate::deciding::{Reached, answer_to};
use crate::one::One;
use linear_form::Point;
use obligations::{VarList, greatest_load, rest_gap};
use policy_tree::Policy;
use std::alloc::{AllocError, Global};

/// Two cores of which the filter fails, and whose loads differ by more than the gap.
#[derive(Drop)]
pub struct WiderGap {
    pub gap: u32,
    /// The variables by their numbers, in the order of the point's values.
    pub vars: VarList,
    pub point: Point,
}

/// What is found of the least gap: wherever the filter fails, the victim's load is at most so much greater than the
/// thief's.
#[derive(Drop)]
pub enum LeastGap {
    /// No victim of which the filter fails has a greater load.
    Even,
    /// The gap, and two cores of which the filter fails that have just this gap.
    Least(u32, WiderGap),
    /// It isn't known of this gap whether it is left. The other is, and none less was proved.
    Undecided(u32, u32),
}

/// Whether the filter leaves no wider gap, as `check_policy` decides an obligation.
pub fn check_gap(alloc: Global, policy: &Policy, gap: u32, budget: u64) -> Result<One, AllocError>
    requires resolved { IsResolved (meaning_of policy.now) }
    requires few { first_crowded (meaning_of policy.now) ob_names ≡ None }
    ensures one { IfOk result (IsOneOf (meaning_of policy.now) budget (rest_gap gap)) }
    ensures decided { ComparesDifferences (meaning_of policy.now) →
        IfOk result (λ one. IsFalse (is_left one.answer)) }
{
    let question = rest_gap(alloc, policy, gap)?;
    let Reached { answer, looks } = answer_to(alloc, question.systems.as_slice(), budget)?;
    Ok(One {
        vars: question.vars,
        answer,
        looks,
    })
}

/// The least gap that the filter of a resolved policy leaves, found by halving.
pub fn least_gap(alloc: Global, policy: &Policy, budget: u64) -> Result<LeastGap, AllocError>
    requires resolved { IsResolved (meaning_of policy.now) }
    requires few { first_crowded (meaning_of policy.now) ob_names ≡ None }
    ensures found { IfOk result (IsLeastGap (meaning_of policy.now) budget) }
    ensures decided { ComparesDifferences (meaning_of policy.now) → IfOk result IsKnownGap }
{
    let widest = greatest_load(policy.load);
    match ask(alloc, policy, 0, budget)? {
        Asked::Left => Ok(LeastGap::Even),
        Asked::Passed(wider) => between(alloc, policy, budget, wider, widest),
        Asked::Open => Ok(LeastGap::Undecided(0, widest)),
    }
}

/// The least gap, where one that is passed is less than one that the filter leaves.
fn between(
    alloc: Global,
    policy: &Policy,
    budget: u64,
    mut passed: WiderGap,
    mut left: u32,
) -> Result<LeastGap, AllocError>
    requires resolved { IsResolved (meaning_of policy.now) }
    requires few { first_crowded (meaning_of policy.now) ob_names ≡ None }
    requires passed { IsWider (meaning_of policy.now) passed }
    requires left { RestGap (meaning_of policy.now) left }
    requires less { passed.gap < left }
    ensures found { IfOk result (IsLeastGap (meaning_of policy.now) budget) }
    ensures decided { ComparesDifferences (meaning_of policy.now) → IfOk result IsKnownGap }
{
    while passed.gap + 1 < left {
        let gap = passed.gap + (left - passed.gap) / 2;
        match ask(alloc, policy, gap, budget)? {
            Asked::Left => left = gap,
            Asked::Passed(wider) => passed = wider,
            Asked::Open => return Ok(LeastGap::Undecided(gap, left)),
        }
    }
    Ok(LeastGap::Least(left, passed))
}

/// What is found of one gap.
#[derive(Drop)]
enum Asked {
    /// The filter leaves no wider one.
    Left,
    /// Two cores of which it fails have a wider one.
    Passed(WiderGap),
    /// Neither is known.
    Open,
}

fn ask(alloc: Global, policy: &Policy, gap: u32, budget: u64) -> Result<Asked, AllocError>
    requires resolved { IsResolved (meaning_of policy.now) }
    requires few { first_crowded (meaning_of policy.now) ob_names ≡ None }
    ensures found { IfOk result (IsAsked (meaning_of policy.now) budget gap) }
    ensures decided { ComparesDifferences (meaning_of policy.now) → IfOk result IsToldOf }
{
    let One { vars, answer, .. } = check_gap(alloc, policy, gap, budget)?;
    match answer {
        ObAnswer::Holds(_certs) => Ok(Asked::Left),
        ObAnswer::Fails(point) => Ok(Asked::Passed(WiderGap { gap, vars, point })),
        ObAnswer::Undecided(_points) => Ok(Asked::Open),
    }
}
