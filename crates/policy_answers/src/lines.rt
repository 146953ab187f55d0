//! Writes answers line by line.

ghost use Rattle.std.specs.Prelude.{◌≡◌, ◌≤◌, ◌++◌, ◌∷◌, [], codes, cond, filter, length, map};
ghost use Rattle.policy_tree.specs.Meaning.{meaning_of};
ghost use Rattle.sched_io.specs.Puts.{Puts};
ghost use Rattle.obligations.specs.Names.{ob_text};
ghost use Rattle.policy_reader.specs.Lines.{fault_line};
ghost use Rattle.policy_answers.specs.declared.lines.TheConstants.{WORD_ROOM};
ghost use Rattle.policy_answers.specs.Lines.{is_shown, line_answered, line_held, line_of, outcome_word};
ghost use Rattle.policy_answers.specs.Lines.{refusal_line, shown_answers, shown_names};

use crate::reading::Refusal;
use obligations::{ObName, ob_names};
use policy_checker::{Answered, Outcome};
use policy_reader::TextFault;
use policy_tree::Policy;
use sched_io::{Line, PutFault, Sink, put_all};

// The most bytes of an answer's word.
const WORD_ROOM: usize = 11;

/// Writes a line for each obligation of a policy that is accepted, and the verdict.
pub(crate) fn put_held<S: Sink>(out: &mut S, policy: &Policy) -> Result<(), PutFault>
    ensures { Puts (map line_held (shown_names (meaning_of policy.now)) ++ codes "accepted\n" ∷ []) result
        (S.shown out.old) (S.shown out.new) }
{
    put_names(out, policy, ob_names())?;
    put_all(out, b"accepted\n")?;
    Ok(())
}

/// Writes the lines of obligations that hold.
fn put_names<S: Sink>(out: &mut S, policy: &Policy, names: &[ObName]) -> Result<(), PutFault>
    ensures { Puts (map line_held (filter (is_shown (meaning_of policy.now)) names.now)) result
        (S.shown out.old) (S.shown out.new) }
{
    for name in names {
        put_shown(out, policy, *name, Outcome::Holds)?;
    }
    Ok(())
}

/// Writes the line of each obligation with its answer, and the line of the verdict.
pub(crate) fn put_answers<S: Sink>(
    out: &mut S,
    policy: &Policy,
    answers: &[Answered],
    verdict: &[u8],
) -> Result<(), PutFault>
    ensures { Puts (map line_answered (shown_answers (meaning_of policy.now) answers.now) ++ verdict.now ∷ []) result
        (S.shown out.old) (S.shown out.new) }
{
    put_answered(out, policy, answers)?;
    put_all(out, verdict)?;
    Ok(())
}

/// Writes the line of each obligation with its answer.
fn put_answered<S: Sink>(out: &mut S, policy: &Policy, answers: &[Answered]) -> Result<(), PutFault>
    ensures { Puts (map line_answered (shown_answers (meaning_of policy.now) answers.now)) result
        (S.shown out.old) (S.shown out.new) }
{
    for answered in answers {
        put_shown(out, policy, answered.name, answered.answer.outcome())?;
    }
    Ok(())
}

/// Writes the line of an obligation, where it has one.
fn put_shown<S: Sink>(
    out: &mut S,
    policy: &Policy,
    name: ObName,
    outcome: Outcome,
) -> Result<(), PutFault>
    ensures { Puts (cond (is_shown (meaning_of policy.now) name) (line_of name outcome ∷ []) []) result
        (S.shown out.old) (S.shown out.new) }
{
    if is_shown(policy, name) {
        put_all(out, line_of(name, outcome).as_bytes())?;
    }
    Ok(())
}

/// Whether the obligation has a line: that of further moves only where the policy has a batch.
fn is_shown(policy: &Policy, name: ObName) -> bool
    ensures { result ≡ is_shown (meaning_of policy.now) name }
{
    match name {
        ObName::B4 => policy.batch.is_some(),
        ObName::B1
        | ObName::B2
        | ObName::B3
        | ObName::H1Enqueue
        | ObName::H2Enqueue
        | ObName::H1Tick
        | ObName::H2Tick
        | ObName::H1Yield
        | ObName::H2Yield
        | ObName::H1Block
        | ObName::H2Block => true,
    }
}

/// The line of an obligation.
pub(crate) fn line_of(name: ObName, outcome: Outcome) -> Line
    ensures { result ≡ line_of name outcome }
{
    let mut line = Line::new();
    line.add(name.text().as_bytes());
    line.add(outcome_word(outcome));
    line
}

/// The word of an answer.
pub(crate) fn outcome_word(outcome: Outcome) -> &'static [u8]
    ensures word { result.now ≡ outcome_word outcome }
    ensures short { length result.now ≤ WORD_ROOM }
{
    match outcome {
        Outcome::Holds => b" holds\n",
        Outcome::Fails => b" fails\n",
        Outcome::Undecided => b" undecided\n",
    }
}

/// Writes the line of a text that isn't judged.
pub(crate) fn put_refusal<S: Sink>(out: &mut S, refusal: &Refusal) -> Result<(), PutFault>
    ensures { Puts (refusal_line refusal.now ∷ []) result (S.shown out.old) (S.shown out.new) }
{
    match refusal {
        Refusal::Faulty(fault) => put_all(out, line_of_fault(fault).as_bytes()),
        Refusal::Crowded(name) => put_all(out, crowded_line(*name).as_bytes()),
    }
}

/// The line of an obligation with too many cases.
fn crowded_line(name: ObName) -> Line
    ensures { result ≡ codes "too-many-cases " ++ (ob_text name ++ codes "\n") }
{
    let mut line = Line::new();
    line.add(b"too-many-cases ");
    line.add(name.text().as_bytes());
    line.add(b"\n");
    line
}

/// The line of a fault of a policy's text.
fn line_of_fault(fault: &TextFault) -> Line
    ensures { result ≡ fault_line fault.now }
{
    let mut line = Line::new();
    line.add(b"policy ");
    line.add_number(u64::from(fault.at));
    line.add(b" ");
    line.add(fault.kind.word().as_bytes());
    line.add(b"\n");
    line
}
