//! What is found out about a policy under a budget. `BUDGET; POLICY` spells the two.

use crate::policies::policy_of;
use obligations::ObName;
use policy_checker::{
    Answered, CheckFault, ObAnswer, One, OneFault, Outcome, Verdict, check_one, check_policy,
};
use std::alloc::{AllocError, Global};

/// The verdict: `accepted`, or the answer to each obligation where some are left undecided.
pub(crate) fn verdict(alloc: Global, text: &str) -> Result<String, AllocError> {
    match parts(text) {
        Some((budget, policy)) => verdict_under(alloc, policy, budget),
        None => String::from_str(alloc, "no budget"),
    }
}

/// The verdict on the policy. It is let go in one place, since it has many parts.
fn verdict_under(alloc: Global, policy: &str, budget: u64) -> Result<String, AllocError> {
    let policy = policy_of(alloc, policy).map_err(|_fault| AllocError)?;
    let verdict = check_policy(alloc, policy, budget);
    let text = verdict_text(alloc, &verdict);
    drop(verdict);
    text
}

/// The budget, and the policy's text.
fn parts(text: &str) -> Option<(u64, &str)> {
    let (budget, policy) = text.split_once("; ")?;
    Some((budget.parse().ok()?, policy))
}

/// The verdict as a text.
fn verdict_text(
    alloc: Global,
    verdict: &Result<Verdict, CheckFault>,
) -> Result<String, AllocError> {
    match verdict {
        Ok(Verdict::Accepted(_)) => String::from_str(alloc, "accepted"),
        Ok(Verdict::Undecided(answers, _)) => answers_text(alloc, answers.as_slice()),
        _ => String::from_str(alloc, "another verdict"),
    }
}

/// Each obligation with its answer.
fn answers_text(alloc: Global, answers: &[Answered]) -> Result<String, AllocError> {
    let mut text = String::new(alloc);
    for answered in answers {
        text.push_str(answered.name.text())?;
        text.push_str(word_of(answered.answer.outcome()))?;
    }
    Ok(text)
}

/// The word of an answer.
fn word_of(outcome: Outcome) -> &'static str {
    match outcome {
        Outcome::Holds => " holds; ",
        Outcome::Fails => " fails; ",
        Outcome::Undecided => " undecided; ",
    }
}

/// How many points the third obligation is left undecided with.
pub(crate) fn points_left(alloc: Global, text: &str) -> Result<String, AllocError> {
    let left = match parts(text) {
        Some((budget, policy)) => left_under(alloc, policy, budget),
        None => None,
    };
    match left {
        Some(points) => format!(in alloc; "{points} points"),
        None => String::from_str(alloc, "none"),
    }
}

/// The points, where the obligation is left undecided and they are known.
fn left_under(alloc: Global, policy: &str, budget: u64) -> Option<u128> {
    let policy = policy_of(alloc, policy).ok()?;
    let one = check_one(alloc, &policy, ObName::B3, budget);
    let points = points_of(&one);
    drop(one);
    points
}

/// The points of the answer, if there is one.
fn points_of(one: &Result<One, OneFault>) -> Option<u128> {
    match one {
        Ok(one) => undecided_points(&one.answer),
        Err(_fault) => None,
    }
}

/// The points of a system that is left undecided.
fn undecided_points(answer: &ObAnswer) -> Option<u128> {
    match answer {
        ObAnswer::Undecided(points) => *points,
        ObAnswer::Holds(_certs) => None,
        ObAnswer::Fails(_point) => None,
    }
}
