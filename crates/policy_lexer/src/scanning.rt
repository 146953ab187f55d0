//! Whether a text has tokens, without keeping them.

ghost use Rattle.std.specs.Prelude.{◌≡◌, ◌≤◌, MatchOption, length};
ghost use Rattle.sched_base.specs.declared.limits.TheConstants.{MAX_POLICY_BYTES};
ghost use Rattle.policy_lexer.specs.Faults.{HasTokens, IsRealFault};
ghost use Rattle.policy_lexer.specs.First.{size_of_step};

use crate::fault::LexFault;
use crate::piece::{Step, first_step};

/// The first fault of a text, `None` where it has tokens. It takes no memory, so that every text
/// has one of these answers.
pub fn fault_of(text: &[u8]) -> Option<LexFault>
    requires { length text.now ≤ MAX_POLICY_BYTES }
    ensures { MatchOption result (HasTokens text.now) (IsRealFault text.now) }
{
    let mut at = 0;
    while (at as usize) < text.len() {
        let (_read, rest) = text.split_at(at as usize);
        match first_step(rest, at) {
            Ok(step) => at += size_of_step(&step),
            Err(fault) => return Some(fault),
        }
    }
    None
}

/// How many bytes a step goes on.
fn size_of_step(step: &Step) -> u32
    ensures { result ≡ size_of_step step.now }
{
    match step {
        Step::Gap(size) | Step::Token(_, size) => *size,
    }
}
