//! What each command answers to the texts of its files.

ghost use Rattle.std.specs.Prelude.{◌≡◌, ℕ, Some, IfErr, IfOk, IsTrue};
ghost use Rattle.command_words.specs.Asks.{asked};
ghost use Rattle.command_words.specs.Command.{IsSerial, bench as asks_bench, make as asks_make};
ghost use Rattle.command_words.specs.Numbers.{is_size};
ghost use Rattle.trace_run.specs.Runs.{IsRunOf};
ghost use Rattle.ipanema_cli.specs.Answers.{CanBePut};
ghost use Rattle.ipanema_cli.specs.Replies.{Replies};
ghost use Rattle.ipanema_cli.specs.Texts.{AreShort, text_of};
ghost use Rattle.ipanema_cli.specs.declared.stop.Stop.TheVariants as stop;

use crate::answers::{Answer, bench, judge, make, play_texts, simulate_texts};
use crate::exports::{draft, export_text};
use crate::kinds::{ExportCommand, HistoryCommand, SimulationCommand};
use crate::stop::Stop;
use crate::texts::Texts;
use command_words::Request;
use policy_answers::{bound_text, check_text, explain_text, rest_text, verify_text};
use std::alloc::Global;
use wait_answers::waits_text;

/// The answer to what is asked for, where that plays no cores side by side. It has no runtime, so it waits for nobody.
pub fn reply(alloc: Global, request: Request<'_>, texts: &Texts) -> Result<Answer, Stop>
    requires serial { IsSerial (asked request) }
    requires short { AreShort texts.now }
    requires made { (seed size : ℕ) → asked request ≡ Some (asks_make seed size) → IsTrue (is_size size) }
    requires benched { (seed size : ℕ) → asked request ≡ Some (asks_bench seed size) → IsTrue (is_size size) }
    ensures answer { IfOk result (Replies IsRunOf (asked request.entry) (text_of texts.now)) }
    ensures shown { IfOk result CanBePut }
    ensures memory { IfErr result (λ why. why ≡ stop.Memory) }
{
    let (policy, trace) = (texts.policy.as_slice(), texts.trace.as_slice());
    match request {
        Request::Check { .. } => Ok(Answer::Checked(check_text(alloc, policy)?)),
        Request::Explain { name, .. } => Ok(Answer::Explained(explain_text(alloc, policy, name)?)),
        Request::Prove { .. } => export_text(alloc, ExportCommand::Prove, policy),
        Request::Emit { .. } => export_text(alloc, ExportCommand::Emit, policy),
        Request::Draft { .. } => draft(alloc, policy),
        Request::Bound { .. } => Ok(Answer::Bounded(bound_text(alloc, policy)?)),
        Request::Rest { .. } => Ok(Answer::Rested(rest_text(alloc, policy)?)),
        Request::Waits { .. } => Ok(Answer::Waited(waits_text(alloc, policy)?)),
        Request::Verify { .. } => {
            let certs = texts.certificates.as_slice();
            Ok(Answer::Verified(verify_text(alloc, policy, certs)?))
        }
        Request::Play { .. } => play_texts(alloc, policy, trace),
        // They take more than one thread.
        Request::Run { .. } => unreachable!(),
        Request::Crew { .. } => unreachable!(),
        Request::Simulate { .. } => {
            simulate_texts(alloc, SimulationCommand::Simulate, policy, trace)
        }
        Request::Waste { .. } => { simulate_texts(alloc, SimulationCommand::Waste, policy, trace) }
        Request::Replay(_) => judge(alloc, HistoryCommand::Replay, texts),
        Request::Report(_) => judge(alloc, HistoryCommand::Report, texts),
        Request::Migrate(_) => judge(alloc, HistoryCommand::Migrate, texts),
        Request::Why(_) => judge(alloc, HistoryCommand::Why, texts),
        Request::Make { seed, size } => make(alloc, seed, size),
        Request::Bench { seed, size } => bench(alloc, seed, size),
        Request::Unknown => Ok(Answer::BadWords),
    }
}
