//! How a call ends that came to an answer, or to none.

ghost use Rattle.std.specs.Prelude.{◌≡◌, ◌⊎◌, IfOk};
ghost use Rattle.ipanema_cli.specs.Answers.{CanBePut};
ghost use Rattle.ipanema_cli.specs.Ends.{Concludes, Writes};

use crate::answers::Answer;
use crate::status::Status;
use crate::stop::Stop;
use sched_io::{PutFault, Sink};

/// Writes the answer, or the line of a text that is too long, and gives the status.
pub fn conclude<S: Sink>(answered: Result<Answer, Stop>, out: &mut S) -> u8
    requires { IfOk answered CanBePut }
    ensures concludes { Concludes answered (S.shown out.old) (S.shown out.new) result }
    ensures quiet { (result ≡ 5) ⊎ ((S.shown out.new).faults ≡ (S.shown out.old).faults) }
{
    match answered {
        Ok(answer) => give(answer, out),
        Err(Stop::TooLong(kind)) => give(Answer::TooLong(kind), out),
        Err(Stop::Unread) => Status::ReadFault.code(),
        Err(Stop::Memory) => Status::Memory.code(),
    }
}

/// Writes an answer, and gives its status.
///
/// The answer is let go in one place, by `drop`: an enum that owns a policy has many ways to be let go, and each would
/// be one more way through the function that ends with it.
fn give<S: Sink>(answer: Answer, out: &mut S) -> u8
    requires { CanBePut answer }
    ensures writes { Writes answer (S.shown out.old) (S.shown out.new) result }
    ensures quiet { (result ≡ 5) ⊎ ((S.shown out.new).faults ≡ (S.shown out.old).faults) }
{
    let code = match answer.put(out) {
        Ok(()) => answer.status().code(),
        Err(PutFault::Failed) => Status::WriteFault.code(),
    };
    drop(answer);
    code
}
