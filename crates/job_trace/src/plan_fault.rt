//! Why a trace is no plan for a policy.

ghost use Rattle.std.specs.Prelude.{◌≡◌};

use std::alloc::{AllocError, AllocFailed};

/// Why a trace doesn't fit a policy, by the number of the first line that doesn't.
#[derive(Clone, Copy)]
pub enum PlanFault {
    /// The policy's load doesn't allow the weight of the thread.
    WeightRange(u32),
    /// A constant is out of the range that the policy declares.
    ConstRange(u32),
    /// The policy declares no such attribute of cores.
    ConstName(u32),
    /// There was no memory for the plan.
    Memory,
}

impl From<AllocError> for PlanFault {
    ghost use Rattle.job_trace.specs.declared.plan_fault.PlanFault.TheVariants.{Memory};

    ghost from_gives = { λ _ e. e ≡ Memory };

    fn from(_error: AllocError) -> PlanFault {
        PlanFault::Memory
    }
}

impl<T: Drop> From<AllocFailed<T>> for PlanFault {
    ghost use Rattle.job_trace.specs.declared.plan_fault.PlanFault.TheVariants.{Memory};

    ghost from_gives = { λ _ e. e ≡ Memory };

    fn from(_error: AllocFailed<T>) -> PlanFault {
        PlanFault::Memory
    }
}
