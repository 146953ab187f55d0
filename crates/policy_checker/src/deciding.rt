//! Decides the systems of an obligation.

ghost use Rattle.std.specs.Prelude.{◌+◌, ◌<◌, ◌≤◌, ◌^◌, ℕ, IfOk, OnOk, length};
ghost use Rattle.linear_form.specs.Difference.{IsDifference};
ghost use Rattle.linear_solver.specs.Looks.{most_looks};
ghost use Rattle.policy_checker.specs.Answers.{HasFewLooks, IsAnswer, IsFound};

use crate::answer::ObAnswer;
use crate::smaller::smaller;
use difference_solver::{Decided, decide_differences};
use linear_form::System;
use linear_solver::{Answer, decide};
use lists::Items;
use std::alloc::{AllocError, Global};

/// An answer, and how many boxes were looked at for it.
pub(crate) struct Reached {
    pub answer: ObAnswer,
    pub looks: u64,
}

/// The answer to an obligation with these systems. It is done at the first system for which a point is found.
pub(crate) fn answer_to(
    alloc: Global,
    systems: &[System],
    budget: u64,
) -> Result<Reached, AllocError>
    requires { length systems.now < 2 ^ 32 }
    ensures answer { IfOk result (λ reached. IsAnswer budget systems.now reached.answer) }
    ensures looks { IfOk result (λ reached. HasFewLooks budget systems.now reached.looks) }
{
    let mut answer = ObAnswer::Holds(Items::from_vec(Vec::new(alloc)));
    let mut looks = 0;
    for system in systems {
        answer = answer.with(found_of(alloc, system, budget, &mut looks)?)?;
        if answer.is_failure() {
            return Ok(Reached { answer, looks });
        }
    }
    Ok(Reached { answer, looks })
}

/// What is found of a system. A point is made smaller, so that its numbers are easier to read.
fn found_of(
    alloc: Global,
    system: &System,
    budget: u64,
    looks: &mut u64,
) -> Result<Answer, AllocError>
    ensures found { IfOk result (IsFound budget system.now) }
    ensures looks { OnOk result (looks.new ≤ looks.old + most_looks budget) }
{
    match decided(alloc, system, budget, looks)? {
        Answer::Holds(cert) => Ok(Answer::Holds(cert)),
        Answer::Fails(point) => Ok(Answer::Fails(smaller(alloc, system, point)?)),
        Answer::Undecided(points) => Ok(Answer::Undecided(points)),
    }
}

/// What the solvers find of a system: one of differences goes to the one that always decides.
fn decided(
    alloc: Global,
    system: &System,
    budget: u64,
    looks: &mut u64,
) -> Result<Answer, AllocError>
    ensures found { IfOk result (IsFound budget system.now) }
    ensures looks { OnOk result (looks.new ≤ looks.old + most_looks budget) }
{
    if system.is_difference() {
        return by_differences(alloc, system);
    }
    match decide(alloc, system, budget, looks) {
        Ok(answer) => Ok(answer),
        Err(_unmade) => Err(AllocError),
    }
}

/// What is found of a system of differences.
fn by_differences(alloc: Global, system: &System) -> Result<Answer, AllocError>
    requires { IsDifference system.now.rows }
    ensures { (budget : ℕ) → IfOk result (IsFound budget system.now) }
{
    match decide_differences(alloc, system) {
        Ok(Decided::Holds(cert)) => Ok(Answer::Holds(cert)),
        Ok(Decided::Fails(point)) => Ok(Answer::Fails(point)),
        Err(_unmade) => Err(AllocError),
    }
}
