//! How an explanation is written.

ghost use Rattle.std.specs.Prelude.{◌≡◌, ◌∷◌};
ghost use Rattle.sched_io.specs.Puts.{Puts};
ghost use Rattle.history_reasons.specs.Lines.{AreTold, CanBeTold, legal_lines, reason_line, why_lines};
ghost use Rattle.history_replay.specs.Lines.{explanation_lines, judgement_line, whole_line};

use crate::refusal::HistoryRefusal;
use history_reasons::{Coming, Explanation, Reason, numbered, print_coming};
use sched_io::{Line, PutFault, Sink, put_all};

/// Writes the explanation: the line that replay writes, and then why.
pub(crate) fn put_explanation<S: Sink>(
    out: &mut S,
    explanation: &Explanation,
) -> Result<(), PutFault>
    requires { CanBeTold explanation.now }
    ensures { Puts (explanation_lines explanation.now) result (S.shown out.old) (S.shown out.new) }
{
    let line = judgement_line(explanation);
    put_all(out, line.as_bytes())?;
    put_why(out, explanation)
}

/// The line that replay writes of a history with this explanation.
fn judgement_line(explanation: &Explanation) -> Line
    ensures { result ≡ judgement_line explanation.now }
{
    match explanation {
        Explanation::Whole(count) => whole_line(*count),
        Explanation::Short(count, _) => HistoryRefusal::Short(*count).to_line(),
        Explanation::Illegal(at, _, _) => HistoryRefusal::Illegal(*at).to_line(),
    }
}

/// The line of a whole history of so many entries.
pub(crate) fn whole_line(count: u32) -> Line
    ensures { result ≡ whole_line count }
{
    numbered(b"whole ", count, b"\n")
}

/// Writes what stands behind the first line: the rule that is broken, and each entry that may come.
fn put_why<S: Sink>(out: &mut S, explanation: &Explanation) -> Result<(), PutFault>
    requires { CanBeTold explanation.now }
    ensures { Puts (why_lines explanation.now) result (S.shown out.old) (S.shown out.new) }
{
    match explanation {
        Explanation::Whole(_) => Ok(()),
        Explanation::Short(_, coming) => print_coming(out, coming),
        Explanation::Illegal(_, reason, coming) => put_broken(out, reason, coming),
    }
}

/// Writes the rule that is broken, and each entry that might have come.
fn put_broken<S: Sink>(out: &mut S, reason: &Reason, coming: &Coming) -> Result<(), PutFault>
    requires { AreTold coming.now }
    ensures { Puts (reason_line reason.now ∷ legal_lines coming.now) result (S.shown out.old) (S.shown out.new) }
{
    let line = reason.to_line();
    put_all(out, line.as_bytes())?;
    print_coming(out, coming)
}
