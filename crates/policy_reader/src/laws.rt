//! Laws of texts.

ghost use Rattle.std.specs.Prelude.{◌≤◌, length};
ghost use Rattle.sched_base.specs.declared.limits.TheConstants.{MAX_POLICY_BYTES};
ghost use Rattle.policy_reader.specs.EachAnswered.{HasAnswer};
ghost use Rattle.policy_reader.specs.OneAnswer.{HasOneAnswer};
ghost use Rattle.policy_reader.specs.Resolved.{SpellsResolved};

use policy_lexer::fault_of;

/// A text spells one policy at most and has at most one fault, and it never does both.
pub fn law_one_answer()
    ensures { HasOneAnswer }
{}

/// A text within the limit spells a resolved policy, if it spells one.
pub fn law_spells_resolved()
    ensures { SpellsResolved }
{}

/// A text within the limit spells a policy or has a fault. So none is lost: for no text is want of
/// memory the only answer.
pub fn law_each_has_answer(text: &[u8])
    requires { length text.now ≤ MAX_POLICY_BYTES }
    ensures { HasAnswer text.now }
{
    let _fault = fault_of(text);
}
