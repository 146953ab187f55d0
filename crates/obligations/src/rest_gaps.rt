//! How wide a gap between two loads the filter leaves, as systems.

ghost use Rattle.std.specs.Prelude.{◌≡◌, ◌↔◌, ◌*◌, IfOk, None};
ghost use Rattle.sched_base.specs.declared.limits.TheConstants.{MAX_THREADS};
ghost use Rattle.policy_tree.specs.Meaning.{meaning_of};
ghost use Rattle.policy_eval.specs.Obligations.{RestGap, rest_gap};
ghost use Rattle.policy_eval.specs.Ranges.{greatest_weight};
ghost use Rattle.policy_eval.specs.Resolved.{IsResolved, IsWeightRange};
ghost use Rattle.obligations.specs.Counts.{first_crowded};
ghost use Rattle.obligations.specs.Laws.{HaveNoSolution};
ghost use Rattle.obligations.specs.Names.{ob_names};
ghost use Rattle.obligations.specs.Systems.{question_of};

use crate::making::question_of;
use crate::obligation::Question;
use crate::premises::greatest_weight;
use crate::statements::Statement;
use policy_tree::{Load, Policy};
use sched_base::MAX_THREADS;
use std::alloc::{AllocError, Global};

/// That the filter of a resolved policy fails of no victim whose load is greater than the thief's by more than the gap,
/// with its variables and systems. It is no obligation, and has as many cases as the first.
pub fn rest_gap(alloc: Global, policy: &Policy, gap: u32) -> Result<Question, AllocError>
    requires resolved { IsResolved (meaning_of policy.now) }
    requires few { first_crowded (meaning_of policy.now) ob_names ≡ None }
    ensures ok { IfOk result (λ q. q ≡ question_of (meaning_of policy.now) (rest_gap gap)) }
    ensures says { IfOk result (λ q. RestGap (meaning_of policy.now) gap ↔ HaveNoSolution q.systems) }
{
    question_of(alloc, policy, Statement::RestGap(gap))
}

/// The load of as many threads as there may be, each of the greatest weight. No gap is wider.
pub fn greatest_load(load: Load) -> u32
    requires { IsWeightRange load }
    ensures { result ≡ MAX_THREADS * greatest_weight load }
{
    MAX_THREADS * greatest_weight(load)
}
