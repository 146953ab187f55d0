//! Texts of a policy that commands write: its certificates, and its rules as a header in C.

ghost use Rattle.std.specs.Prelude.{◌≡◌, ◌≤◌, IfErr, IfOk, length};
ghost use Rattle.sched_base.specs.declared.limits.TheConstants.{MAX_POLICY_BYTES};
ghost use Rattle.policy_tree.specs.Meaning.{meaning_of};
ghost use Rattle.ipanema_cli.specs.Answers.{CanBePut};
ghost use Rattle.ipanema_cli.specs.PolicyAnswers.{exporting_of};
ghost use Rattle.ipanema_cli.specs.Replies.{RepliesDraft, RepliesExport};
ghost use Rattle.ipanema_cli.specs.declared.stop.Stop.TheVariants as stop;

use crate::accepted::{accepted_in, playable_in};
use crate::answers::Answer;
use crate::kinds::ExportCommand;
use crate::stop::Stop;
use c_drafts::draft_text;
use c_printer::c_text;
use cert_file::{CertFileMemory, write_certs};
use policy_answers::check_text;
use policy_checker::AcceptedPolicy;
use std::alloc::Global;

/// The answer to a policy's text within its limit of a command that writes a text of an accepted policy.
pub fn export_text(alloc: Global, command: ExportCommand, policy: &[u8]) -> Result<Answer, Stop>
    requires { length policy.now ≤ MAX_POLICY_BYTES }
    ensures answer { IfOk result (RepliesExport (exporting_of command) policy.now) }
    ensures shown { IfOk result CanBePut }
    ensures memory { IfErr result (λ why. why ≡ stop.Memory) }
{
    match accepted_in(check_text(alloc, policy)?) {
        Ok(accepted) => Ok(Answer::Exported(exported_of(alloc, command, &accepted)?)),
        Err(refusal) => Ok(Answer::Checked(refusal)),
    }
}

/// The answer of `draft` to a policy's text within its limit.
pub fn draft(alloc: Global, policy: &[u8]) -> Result<Answer, Stop>
    requires { length policy.now ≤ MAX_POLICY_BYTES }
    ensures answer { IfOk result (RepliesDraft policy.now) }
    ensures shown { IfOk result CanBePut }
    ensures memory { IfErr result (λ why. why ≡ stop.Memory) }
{
    match playable_in(check_text(alloc, policy)?) {
        Ok(verdict) => Ok(Answer::Exported(draft_text(alloc, verdict)?)),
        Err(refusal) => Ok(Answer::Checked(refusal)),
    }
}

/// What a command writes of an accepted policy.
fn exported_of(
    alloc: Global,
    command: ExportCommand,
    accepted: &AcceptedPolicy,
) -> Result<Vec<u8>, CertFileMemory>
    ensures { IfOk result (λ text. exporting_of command (meaning_of accepted.now) text.items) }
{
    match command {
        ExportCommand::Prove => write_certs(alloc, accepted),
        ExportCommand::Emit => Ok(c_text(alloc, accepted.policy())?),
    }
}
