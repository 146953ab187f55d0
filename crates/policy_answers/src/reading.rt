//! Reads the policy that is to be checked.

ghost use Rattle.std.specs.Prelude.{◌≤◌, length, IfOk};
ghost use Rattle.sched_base.specs.declared.limits.TheConstants.{MAX_POLICY_BYTES};
ghost use Rattle.policy_answers.specs.Reading.{IsReading};

use obligations::ObName;
use policy_reader::{PolicyFault, TextFault, read_policy};
use policy_tree::Policy;
use std::alloc::{AllocError, Global};

/// Why a text within its limit isn't judged.
#[derive(Clone, Copy)]
pub enum Refusal {
    /// The text is no policy: it has this fault.
    Faulty(TextFault),
    /// The obligation is the policy's first with more than `MAX_SYSTEM_CASES` conjunctive cases.
    Crowded(ObName),
}

/// Why there is no answer.
#[derive(Clone, Copy, Debug)]
pub enum CheckMemory {
    /// There was no memory for the policy, its systems, an answer or a line.
    Memory,
}

impl From<AllocError> for CheckMemory {
    fn from(_error: AllocError) -> CheckMemory {
        CheckMemory::Memory
    }
}

/// What a text is read as.
#[derive(Drop)]
pub(crate) enum Reading {
    /// It spells this policy.
    Policy(Policy),
    /// It has this fault.
    Faulty(TextFault),
}

/// What a text within its limit is read as.
pub(crate) fn read(alloc: Global, text: &[u8]) -> Result<Reading, CheckMemory>
    requires { length text.now ≤ MAX_POLICY_BYTES }
    ensures { IfOk result (IsReading text.now) }
{
    match read_policy(alloc, text) {
        Ok(policy) => Ok(Reading::Policy(policy)),
        Err(PolicyFault::Broken(fault)) => Ok(Reading::Faulty(fault)),
        Err(PolicyFault::Memory) => Err(CheckMemory::Memory),
    }
}
