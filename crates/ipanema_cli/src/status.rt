//! How the program ends.

ghost use Rattle.std.specs.Prelude.{◌≡◌};
ghost use Rattle.ipanema_cli.specs.Status.{bound_status, check_status, code_of, explain_status, gap_status, rest_status};
ghost use Rattle.ipanema_cli.specs.Status.{explanation_status, history_refusal_status, history_status, outcome_status};
ghost use Rattle.ipanema_cli.specs.Status.{class_status, refusal_status, simulation_status, verdict_status};
ghost use Rattle.ipanema_cli.specs.Status.{verify_status, wait_status, waiting_status};

use history_reasons::Explanation;
use history_replay::{HistoryAnswer, HistoryRefusal};
use policy_answers::{BoundAnswer, CheckAnswer, ExplainAnswer, Refusal, RestAnswer, VerifyAnswer};
use policy_checker::{LeastGap, Outcome, Verdict};
use starving_plays::Starving;
use trace_play::PlayedCores;
use trace_simulation::{PlayedWaste, SimulationAnswer};
use wait_answers::WaitAnswer;
use wait_classes::WaitClass;

/// How the program ends, for the shell a number.
#[derive(Clone, Copy)]
pub enum Status {
    /// What was asked for was written whole.
    Done,
    /// An obligation of the policy fails.
    Refused,
    /// A text has a fault.
    BadText,
    /// No obligation is known to fail, and of some it isn't known whether it holds.
    Undecided,
    /// A file wasn't read.
    ReadFault,
    /// The output wasn't written whole.
    WriteFault,
    /// There was no memory.
    Memory,
    /// The words are no command.
    BadWords,
    /// A round is due that the trace's limit of entries may have no room for.
    HistoryFull,
    /// A history isn't whole.
    NotWhole,
    /// A file is longer than its limit, or an obligation has too many cases.
    TooMuch,
    /// The certificates aren't those that the policy needs.
    WrongCertificates,
}

impl Status {
    /// The number for the shell.
    pub fn code(self) -> u8
        ensures { result ≡ code_of self }
    {
        match self {
            Status::Done => 0,
            Status::Refused => 1,
            Status::BadText => 2,
            Status::Undecided => 3,
            Status::ReadFault => 4,
            Status::WriteFault => 5,
            Status::Memory => 6,
            Status::BadWords => 7,
            Status::HistoryFull => 8,
            Status::NotWhole => 9,
            Status::TooMuch => 10,
            Status::WrongCertificates => 11,
        }
    }
}

/// The status of an answer of `check`.
pub fn check_status(answer: &CheckAnswer) -> Status
    ensures { result ≡ check_status answer.now }
{
    match answer {
        CheckAnswer::Judged(verdict) => verdict_status(verdict),
        CheckAnswer::Unjudged(refusal) => refusal_status(refusal),
    }
}

/// The status of an answer of `explain`.
pub fn explain_status(answer: &ExplainAnswer) -> Status
    ensures { result ≡ explain_status answer.now }
{
    match answer {
        ExplainAnswer::Explained(told) => outcome_status(told.outcome),
        ExplainAnswer::Unjudged(refusal) => refusal_status(refusal),
    }
}

/// The status of an answer of `bound`.
pub fn bound_status(answer: &BoundAnswer) -> Status
    ensures { result ≡ bound_status answer.now }
{
    match answer {
        BoundAnswer::Bounded(told) => outcome_status(told.outcome),
        BoundAnswer::Unbounded(checked) => check_status(checked),
    }
}

/// The status of an answer of `rest`.
pub fn rest_status(answer: &RestAnswer) -> Status
    ensures { result ≡ rest_status answer.now }
{
    match answer {
        RestAnswer::Rests(told) => gap_status(&told.gap),
        RestAnswer::Unaccepted(checked) => check_status(checked),
    }
}

/// The status of what is found of the gap that cores at rest may have.
fn gap_status(found: &LeastGap) -> Status
    ensures { result ≡ gap_status found.now }
{
    match found {
        LeastGap::Even | LeastGap::Least(_, _) => Status::Done,
        LeastGap::Undecided(_, _) => Status::Undecided,
    }
}

/// The status of an answer of `waits`.
pub fn wait_status(answer: &WaitAnswer) -> Status
    ensures { result ≡ wait_status answer.now }
{
    match answer {
        WaitAnswer::Waits(told) => waiting_status(told.class, &told.starving),
        WaitAnswer::Unaccepted(checked) => check_status(checked),
    }
}

/// The status of what is told of waiting.
fn waiting_status(class: WaitClass, starving: &Option<Starving>) -> Status
    ensures { result ≡ waiting_status class starving.now }
{
    match starving {
        Some(_) => Status::Refused,
        None => class_status(class),
    }
}

/// The status of a class of waiting.
fn class_status(class: WaitClass) -> Status
    ensures { result ≡ class_status class }
{
    match class {
        WaitClass::Queue => Status::Done,
        WaitClass::Slices { .. } | WaitClass::Least { .. } => Status::Done,
        WaitClass::Unknown => Status::Undecided,
    }
}

/// The status of an answer of `verify`.
pub fn verify_status(answer: &VerifyAnswer) -> Status
    ensures { result ≡ verify_status answer.now }
{
    match answer {
        VerifyAnswer::Verified(_) => Status::Done,
        VerifyAnswer::BadLine(_) => Status::BadText,
        VerifyAnswer::Wrong(_, _) => Status::WrongCertificates,
        VerifyAnswer::Unjudged(refusal) => refusal_status(refusal),
    }
}

/// The status of what a trace comes to that is simulated.
pub fn simulation_status(answer: &SimulationAnswer) -> Status
    ensures { result ≡ simulation_status answer.now }
{
    match answer {
        SimulationAnswer::Broken(_) => Status::BadText,
        SimulationAnswer::Played(PlayedCores::Whole(_)) => Status::Done,
        SimulationAnswer::Played(PlayedCores::Full(_)) => Status::HistoryFull,
        SimulationAnswer::Wasted(PlayedWaste::Whole(_)) => Status::Done,
        SimulationAnswer::Wasted(PlayedWaste::Full(_)) => Status::HistoryFull,
    }
}

/// The status of what a history's text comes to.
pub fn history_status(answer: &HistoryAnswer) -> Status
    ensures { result ≡ history_status answer.now }
{
    match answer {
        HistoryAnswer::Whole(_) | HistoryAnswer::Reported(_) => Status::Done,
        HistoryAnswer::Migrated(_) => Status::Done,
        HistoryAnswer::Explained(explanation) => explanation_status(explanation),
        HistoryAnswer::Refused(why) => history_refusal_status(why),
    }
}

/// The status of an explanation.
fn explanation_status(explanation: &Explanation) -> Status
    ensures { result ≡ explanation_status explanation.now }
{
    match explanation {
        Explanation::Whole(_) => Status::Done,
        Explanation::Short(_, _) | Explanation::Illegal(_, _, _) => Status::NotWhole,
    }
}

/// The status of texts that give no whole history.
fn history_refusal_status(why: &HistoryRefusal) -> Status
    ensures { result ≡ history_refusal_status why.now }
{
    match why {
        HistoryRefusal::Trace(_) | HistoryRefusal::BadLine(_) => Status::BadText,
        HistoryRefusal::Illegal(_) | HistoryRefusal::Short(_) => Status::NotWhole,
    }
}

/// The status of a verdict.
fn verdict_status(verdict: &Verdict) -> Status
    ensures { result ≡ verdict_status verdict.now }
{
    match verdict {
        Verdict::Accepted(_) => Status::Done,
        Verdict::Refused(_, _) => Status::Refused,
        Verdict::Undecided(_, _) => Status::Undecided,
    }
}

/// The status of an answer to an obligation.
fn outcome_status(outcome: Outcome) -> Status
    ensures { result ≡ outcome_status outcome }
{
    match outcome {
        Outcome::Holds => Status::Done,
        Outcome::Fails => Status::Refused,
        Outcome::Undecided => Status::Undecided,
    }
}

/// The status of a text that isn't judged.
fn refusal_status(refusal: &Refusal) -> Status
    ensures { result ≡ refusal_status refusal.now }
{
    match refusal {
        Refusal::Faulty(_) => Status::BadText,
        Refusal::Crowded(_) => Status::TooMuch,
    }
}
