//! The header by the verdict.

ghost use Rattle.std.specs.Prelude.{◌≡◌, IfOk};
ghost use Rattle.policy_tree.specs.Meaning.{meaning_of};
ghost use Rattle.c_drafts.specs.Drafts.{draft_of, draft_text};

use crate::comment::add_comment;
use c_printer::{HeaderKind, c_body, c_text};
use policy_checker::{Answered, Verdict};
use policy_tree::Policy;
use std::alloc::{AllocError, Global};

/// The header of the policy that the verdict keeps. Of an accepted one it is that of `c_text`, and of every other a
/// draft.
///
/// A draft names the obligations that fail or are undecided, and its macro `NAME_ACCEPTED` is 0. What else stands
/// behind its comment is the same as of an accepted policy. In a draft of a policy that can't be played an event may
/// reach the line that says it isn't reached.
pub fn draft_text(alloc: Global, verdict: Verdict) -> Result<Vec<u8>, AllocError>
    ensures { IfOk result (λ text. text.items ≡ draft_text verdict) }
{
    match verdict {
        Verdict::Accepted(accepted) => c_text(alloc, accepted.policy()),
        Verdict::Refused(answers, policy) => draft_of(alloc, answers.as_slice(), &policy),
        Verdict::Undecided(answers, policy) => draft_of(alloc, answers.as_slice(), &policy),
    }
}

/// The draft of a policy whose obligations have these answers.
fn draft_of(alloc: Global, answers: &[Answered], policy: &Policy) -> Result<Vec<u8>, AllocError>
    ensures { IfOk result (λ text. text.items ≡ draft_of answers.now (meaning_of policy.now)) }
{
    let mut text = Vec::new(alloc);
    add_comment(&mut text, answers, policy)?;
    let body = c_body(alloc, policy, HeaderKind::Draft)?;
    text.extend_from_slice(body.as_slice())?;
    Ok(text)
}
