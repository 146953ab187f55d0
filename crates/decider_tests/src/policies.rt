//! Policies by their texts, and their obligations. Where something else goes with a policy, it stands in front of its
//! text, with `; ` behind it.

ghost use Rattle.std.specs.Prelude.{IfOk};
ghost use Rattle.policy_tree.specs.Meaning.{meaning_of};
ghost use Rattle.policy_eval.specs.Resolved.{IsResolved};

use obligations::{ObName, Obligation, Obligations, ObligeFault, oblige};
use policy_reader::read_policy;
use policy_tree::Policy;
use sched_base::MAX_POLICY_BYTES;
use std::alloc::{AllocError, Global};

/// Why a text has no obligations.
#[derive(Clone, Copy)]
pub(crate) enum Unmade {
    /// It is no policy, or there was no memory for one.
    Policy,
    /// The obligation has too many cases, so many.
    Cases(ObName, u32),
    /// There was no memory for them.
    Memory,
}

impl Unmade {
    /// The answer to such a text.
    pub(crate) fn answer(self, alloc: Global) -> Result<String, AllocError> {
        match self {
            Unmade::Policy => String::from_str(alloc, "no policy"),
            Unmade::Cases(name, count) => format!(in alloc; "{} has {count} cases", name.text()),
            Unmade::Memory => Err(AllocError),
        }
    }
}

/// The policy of the text, which is a resolved one.
pub(crate) fn policy_of(alloc: Global, text: &str) -> Result<Policy, Unmade>
    ensures { IfOk result (λ p. IsResolved (meaning_of p)) }
{
    if text.len() as u64 > MAX_POLICY_BYTES {
        return Err(Unmade::Policy);
    }
    match read_policy(alloc, text.as_bytes()) {
        Ok(policy) => Ok(policy),
        Err(_fault) => Err(Unmade::Policy),
    }
}

/// The obligations of the policy of the text.
pub(crate) fn obligations_of(alloc: Global, text: &str) -> Result<Obligations, Unmade> {
    let policy = policy_of(alloc, text)?;
    match oblige(alloc, &policy) {
        Ok(all) => Ok(all),
        Err(ObligeFault::Cases(name, count)) => Err(Unmade::Cases(name, count)),
        Err(ObligeFault::Memory) => Err(Unmade::Memory),
    }
}

/// The obligation of that name.
pub(crate) fn find<'a>(all: &'a Obligations, name: &str) -> Option<&'a Obligation> {
    all.as_slice().iter().find(|one| one.name.text() == name)
}
