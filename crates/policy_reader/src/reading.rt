//! The policy of a text.

ghost use Rattle.std.specs.Prelude.{◌≤◌, length, IfOk, IfErr};
ghost use Rattle.policy_eval.specs.Resolved.{IsResolved};
ghost use Rattle.sched_base.specs.declared.limits.TheConstants.{MAX_POLICY_BYTES};
ghost use Rattle.policy_tree.specs.Meaning.{Meaning, meaning_of};
ghost use Rattle.policy_reader.specs.declared.fault.TextFault.{TextFault};
ghost use Rattle.policy_reader.specs.Answers.{IsFaultUnlessMemory, IsReadUnlessMemory, IsRefusedUnlessMemory};
ghost use Rattle.policy_reader.specs.Faults.{HasFault};
ghost use Rattle.policy_reader.specs.Spelled.{SpellsPolicy};

use crate::fault::PolicyFault;
use crate::places::Places;
use policy_lexer::lex;
use policy_parser::{Language, language_of};
use policy_tree::Policy;
use std::alloc::Global;

/// The policy that the text spells, or the fault that it has.
pub fn read_policy(alloc: Global, text: &[u8]) -> Result<Policy, PolicyFault>
    requires { length text.now ≤ MAX_POLICY_BYTES }
    ensures policy { IfOk result (λ p. SpellsPolicy text.now (meaning_of p)) }
    ensures resolved { IfOk result (λ p. IsResolved (meaning_of p)) }
    ensures fault { IfErr result (IsFaultUnlessMemory text.now) }

    // A text that spells a policy isn't refused, and one with a fault is refused for it.
    ensures reads { (p : Meaning) → SpellsPolicy text.now p → IsReadUnlessMemory p result }
    ensures refuses { (fault : TextFault) → HasFault text.now fault →
        IsRefusedUnlessMemory fault result }
{
    read(alloc, text)
}

/// The answer to the text. That it is the only one follows from what it says.
fn read(alloc: Global, text: &[u8]) -> Result<Policy, PolicyFault>
    requires { length text.now ≤ MAX_POLICY_BYTES }
    ensures policy { IfOk result (λ p. SpellsPolicy text.now (meaning_of p)) }
    ensures resolved { IfOk result (λ p. IsResolved (meaning_of p)) }
    ensures fault { IfErr result (IsFaultUnlessMemory text.now) }
{
    let tokens = lex(alloc, text)?;
    let places = Places {
        text,
        tokens: tokens.as_slice(),
    };
    match language_of(text, places.tokens) {
        Language::Policies => places.plain_policy(alloc),
        Language::LevelTexts => places.level_policy(alloc),
    }
}
