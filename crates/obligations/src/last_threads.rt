//! Who may take the last waiting thread of a core, as systems.

ghost use Rattle.std.specs.Prelude.{◌≡◌, ℕ, ◌↔◌, Err, IfOk, Some, None};
ghost use Rattle.policy_tree.specs.Meaning.{meaning_of};
ghost use Rattle.policy_eval.specs.Resolved.{IsResolved};
ghost use Rattle.obligations.specs.declared.making.ObligeFault.TheVariants.{Cases};
ghost use Rattle.obligations.specs.Counts.{first_crowded};
ghost use Rattle.obligations.specs.Laws.{SayTheLast};
ghost use Rattle.obligations.specs.Names.{ob_names};
ghost use Rattle.obligations.specs.Systems.{last_waiting_of};

use crate::crowding::first_crowded;
use crate::making::{ObligeFault, question_of};
use crate::names::ObName;
use crate::obligation::Question;
use crate::statements::Statement;
use policy_tree::Policy;
use std::alloc::{AllocError, Global};

/// What a policy keeps that leaves the last waiting thread of a core to idle cores. It is no obligation.
#[derive(Drop)]
pub struct LastWaiting {
    /// The filter lets only an idle core take from a victim with at most two threads.
    pub filter: Question,
    /// A batch goes on to such a victim only where the thief has one thread at most.
    pub batch: Question,
}

/// Both statements of a resolved policy, each with its variables and systems. The cases of all obligations are counted
/// before one is made. They have no more cases than those.
pub fn last_waiting(alloc: Global, policy: &Policy) -> Result<LastWaiting, ObligeFault>
    requires { IsResolved (meaning_of policy.now) }
    ensures crowded { (crowd : ObName) (count : ℕ) → (result ≡ Err (Cases crowd count)) ↔
        (first_crowded (meaning_of policy.now) ob_names ≡ Some (crowd, count)) }
    ensures ok { IfOk result (λ last. last ≡ last_waiting_of (meaning_of policy.now)) }
    ensures says { IfOk result (λ last. SayTheLast (meaning_of policy.now) last) }
{
    if let Some((crowd, count)) = first_crowded(policy) {
        return Err(ObligeFault::Cases(crowd, count));
    }
    match last_of(alloc, policy) {
        Ok(last) => Ok(last),
        Err(_unmade) => Err(ObligeFault::Memory),
    }
}

/// Both statements of a policy of which no obligation has too many cases.
fn last_of(alloc: Global, policy: &Policy) -> Result<LastWaiting, AllocError>
    requires policy { IsResolved (meaning_of policy.now) }
    requires few { first_crowded (meaning_of policy.now) ob_names ≡ None }
    ensures { IfOk result (λ last. last ≡ last_waiting_of (meaning_of policy.now)) }
{
    let filter = question_of(alloc, policy, Statement::FilterLeavesLast)?;
    let batch = question_of(alloc, policy, Statement::BatchLeavesLast)?;
    Ok(LastWaiting { filter, batch })
}
