//! What the two deciders find of systems, where the checker says that a certificate is right, and the system that a
//! point is a solution. `BUDGET; SYSTEM` spells what the second one gets, and the budget `usual` is that of `check`.

use crate::spelling::{Misspelt, parts, unnamed};
use crate::systems::system_of;
use difference_solver::{Decided, decide_differences};
use linear_cert::{Cert, check};
use linear_form::{Point, System};
use linear_solver::{Answer, decide};
use sched_base::CHECK_BUDGET;
use std::alloc::{AllocError, Global};

/// What is found of a system of differences.
pub(crate) fn difference_answer(alloc: Global, text: &str) -> Result<String, AllocError> {
    match system_of(alloc, unnamed(text)) {
        Ok(system) => String::from_str(alloc, of_differences(alloc, &system)),
        Err(fault) => fault.answer(alloc),
    }
}

fn of_differences(alloc: Global, system: &System) -> &'static str {
    if !system.is_difference() {
        return "no system of differences";
    }
    match decide_differences(alloc, system) {
        Ok(Decided::Holds(cert)) => certified(system, &cert),
        Ok(Decided::Fails(point)) => solved(system, &point),
        Err(_memory) => "no memory",
    }
}

/// What is found of any system under a budget.
pub(crate) fn decision(alloc: Global, text: &str) -> Result<String, AllocError> {
    let (budget, system) = match budget_and_system(text) {
        Ok(parts) => parts,
        Err(fault) => return fault.answer(alloc),
    };
    match system_of(alloc, system) {
        Ok(system) => decided(alloc, &system, budget),
        Err(fault) => fault.answer(alloc),
    }
}

fn decided(alloc: Global, system: &System, budget: u64) -> Result<String, AllocError> {
    let mut looks = 0;
    match decide(alloc, system, budget, &mut looks) {
        Ok(Answer::Holds(cert)) => String::from_str(alloc, certified(system, &cert)),
        Ok(Answer::Fails(point)) => String::from_str(alloc, solved(system, &point)),
        Ok(Answer::Undecided(points)) => undecided(alloc, points),
        Err(_memory) => Err(AllocError),
    }
}

/// The budget, and the system's spelling.
fn budget_and_system(text: &str) -> Result<(u64, &str), Misspelt> {
    let (budget, system) = parts(text)?;
    Ok((budget_of(budget)?, system))
}

/// A number of steps.
fn budget_of(word: &str) -> Result<u64, Misspelt> {
    if word == "usual" {
        return Ok(CHECK_BUDGET);
    }
    word.parse().map_err(|_error| Misspelt::Form)
}

/// The answer where there is a certificate.
fn certified(system: &System, cert: &Cert) -> &'static str {
    if check(system, cert) {
        "no solution"
    } else {
        "a wrong certificate"
    }
}

/// The answer where there is a point.
fn solved(system: &System, point: &Point) -> &'static str {
    if system.satisfies(point) {
        "a solution"
    } else {
        "a wrong point"
    }
}

/// The answer where a system of so many points is left undecided, `None` where they pass 128 bits.
fn undecided(alloc: Global, points: Option<u128>) -> Result<String, AllocError> {
    match points {
        Some(points) => format!(in alloc; "undecided, {points} points"),
        None => String::from_str(alloc, "undecided, too many points"),
    }
}
