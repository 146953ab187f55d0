//! Verdicts on policies, and what keeps one from being given.

use crate::accepted::AcceptedPolicy;
use crate::answer::ObAnswers;
use obligations::ObName;
use policy_tree::Policy;

/// What was found out about a policy. Each verdict keeps the policy.
#[derive(Drop)]
pub enum Verdict {
    /// It meets all its obligations.
    Accepted(AcceptedPolicy),
    /// Some obligation fails.
    Refused(ObAnswers, Policy),
    /// No obligation is known to fail, and of some it isn't known whether it holds.
    Undecided(ObAnswers, Policy),
}

/// Why there is no verdict. The policy comes back.
#[derive(Drop)]
pub enum CheckFault {
    /// The obligation is the first with more than `MAX_SYSTEM_CASES` conjunctive cases, and has so many. A count past
    /// `MAX_COUNT` is reported as `MAX_COUNT`.
    Cases(ObName, u32, Policy),
    /// There was no memory for the systems or for an answer.
    Memory(Policy),
}
