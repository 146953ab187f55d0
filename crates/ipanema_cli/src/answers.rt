//! What commands answer, and how it is written.

ghost use Rattle.std.specs.Prelude.{◌≡◌, ◌≤◌, ℕ, IfErr, IfOk, IsTrue, length};
ghost use Rattle.sched_base.specs.declared.limits.TheConstants.{MAX_POLICY_BYTES, MAX_TRACE_BYTES};
ghost use Rattle.sched_io.specs.Puts.{Puts};
ghost use Rattle.ipanema_cli.specs.Answers.{CanBePut, lines_of, status_of};
ghost use Rattle.ipanema_cli.specs.Replies.{IsGiven, IsMade, RepliesBench, RepliesJudging, RepliesPlay};
ghost use Rattle.ipanema_cli.specs.Replies.{RepliesSimulation};
ghost use Rattle.ipanema_cli.specs.Simulations.{simulating_of};
ghost use Rattle.ipanema_cli.specs.Texts.{AreShort};
ghost use Rattle.ipanema_cli.specs.TraceAnswers.{judging_of};
ghost use Rattle.policy_tree.specs.Meaning.{meaning_of};
ghost use Rattle.command_words.specs.Numbers.{is_size};
ghost use Rattle.trace_play.specs.Plays.{IsPlayOf};
ghost use Rattle.trace_run.specs.Runs.{HasPlayers, IsGatedRunOf};
ghost use Rattle.history_replay.specs.Lines.{IsShown as IsShownHistory};
ghost use Rattle.trace_simulation.specs.Simulations.{IsShown};
ghost use Rattle.ipanema_cli.specs.declared.answers.Answer.TheVariants as answer;
ghost use Rattle.ipanema_cli.specs.declared.stop.Stop.TheVariants as stop;

use crate::accepted::accepted_in;
use crate::kinds::{HistoryCommand, SimulationCommand};
use crate::status::{
    Status, bound_status, check_status, explain_status, history_status, rest_status,
    simulation_status, verify_status, wait_status,
};
use crate::stop::Stop;
use crate::texts::{TextKind, Texts};
use bench_play::{BenchTotals, play_bench, print_bench};
use fair_policy::fair_policy;
use history_replay::{HistoryAnswer, migrate_texts, replay_texts, report_texts, why_texts};
use policy_answers::{
    BoundAnswer, CheckAnswer, ExplainAnswer, RestAnswer, VerifyAnswer, check_text, put_text,
};
use policy_checker::{AcceptedPolicy, CheckFault, PlayablePolicy, Verdict, check_policy, playable};
use sched_base::CHECK_BUDGET;
use sched_io::{Gate, PutFault, Sink, put_all};
use std::alloc::Global;
use std::sync::Wait;
use std::thread::Threads;
use trace_maker::make_trace;
use trace_play::{PlayAnswer, PlayMemory, PlayedCores, play_text};
use trace_printer::print_trace;
use trace_run::{Players, run_text};
use trace_simulation::{SimulationAnswer, SimulationMemory, simulate_text, waste_text};
use wait_answers::WaitAnswer;

/// What a command answers.
#[derive(Drop)]
pub enum Answer {
    /// What `check` answers to the policy.
    Checked(CheckAnswer),
    /// What `explain` answers of an obligation of the policy.
    Explained(ExplainAnswer),
    /// What `bound` answers of the bad rounds under the policy.
    Bounded(BoundAnswer),
    /// What `rest` answers of cores of which none can steal from another under the policy.
    Rested(RestAnswer),
    /// What `waits` answers of how long threads wait under the policy.
    Waited(WaitAnswer),
    /// The text of the certificates of a policy that is accepted, or of its header in C.
    Exported(Vec<u8>),
    /// What `verify` answers to a policy and certificates.
    Verified(VerifyAnswer),
    /// What the trace comes to that is played under an accepted policy.
    Played(PlayAnswer),
    /// What the trace comes to that is simulated under a policy that can be played.
    Simulated(SimulationAnswer),
    /// What a history's text comes to, under an accepted policy and a trace.
    Judged(HistoryAnswer),
    /// The text of a made trace.
    Made(Vec<u8>),
    /// What a made trace comes to under the policy `fair`.
    Benched(BenchTotals),
    /// A text of that kind is longer than its limit.
    TooLong(TextKind),
    /// The words are no command.
    BadWords,
}

/// The answer of `play` to texts within their limits.
pub fn play_texts(alloc: Global, policy: &[u8], trace: &[u8]) -> Result<Answer, Stop>
    requires policy { length policy.now ≤ MAX_POLICY_BYTES }
    requires trace { length trace.now ≤ MAX_TRACE_BYTES }
    ensures answer { IfOk result (RepliesPlay IsPlayOf policy.now trace.now) }
    ensures shown { IfOk result CanBePut }
    ensures memory { IfErr result (λ why. why ≡ stop.Memory) }
{
    match accepted_in(check_text(alloc, policy)?) {
        Ok(accepted) => Ok(Answer::Played(play_text(alloc, &accepted, trace)?)),
        Err(refusal) => Ok(Answer::Checked(refusal)),
    }
}

/// The answer of `run` to texts within their limits, or of `crew`, whose players are a crew.
///
/// The players take the turns of the cores side by side, where threads can be started, and each core passes the gate
/// between its unit and its look. That it passes is a clause, and neither the thread nor the place in the turn is.
pub fn run_texts<R: Threads + Wait + Sync, G: Gate + Sync>(
    rt: &R,
    alloc: Global,
    players: Players,
    policy: &[u8],
    trace: &[u8],
    gate: &G,
) -> Result<Answer, Stop>
    requires policy { length policy.now ≤ MAX_POLICY_BYTES }
    requires trace { length trace.now ≤ MAX_TRACE_BYTES }
    requires players { HasPlayers players }
    requires gate { (c r : ℕ) → IsTrue (G.admits gate.now c r) }
    ensures answer { IfOk result (RepliesPlay (IsGatedRunOf (G.passed gate.now)) policy.now trace.now) }
    ensures shown { IfOk result CanBePut }
    ensures memory { IfErr result (λ why. why ≡ stop.Memory) }
{
    match accepted_in(check_text(alloc, policy)?) {
        Ok(accepted) => {
            let outcome = run_text(rt, alloc, &accepted, players, trace, gate)?;
            Ok(Answer::Played(outcome))
        }
        Err(refusal) => Ok(Answer::Checked(refusal)),
    }
}

/// The answer to texts within their limits of a command that simulates a trace.
pub fn simulate_texts(
    alloc: Global,
    command: SimulationCommand,
    policy: &[u8],
    trace: &[u8],
) -> Result<Answer, Stop>
    requires policy { length policy.now ≤ MAX_POLICY_BYTES }
    requires trace { length trace.now ≤ MAX_TRACE_BYTES }
    ensures answer { IfOk result (RepliesSimulation (simulating_of command) policy.now trace.now) }
    ensures shown { IfOk result CanBePut }
    ensures memory { IfErr result (λ why. why ≡ stop.Memory) }
{
    let verdict = match check_text(alloc, policy)? {
        CheckAnswer::Judged(verdict) => verdict,
        refusal => return Ok(Answer::Checked(refusal)),
    };
    match playable(verdict) {
        Ok(kept) => Ok(Answer::Simulated(simulated_under(alloc, &kept, command, trace)?)),
        Err(verdict) => Ok(Answer::Checked(CheckAnswer::Judged(verdict))),
    }
}

/// What a command that simulates a trace says under a policy that can be played.
fn simulated_under(
    alloc: Global,
    policy: &PlayablePolicy,
    command: SimulationCommand,
    trace: &[u8],
) -> Result<SimulationAnswer, SimulationMemory>
    requires trace { length trace.now ≤ MAX_TRACE_BYTES }
    ensures answer { IfOk result (simulating_of command (meaning_of policy.now) trace.now) }
    ensures shown { IfOk result IsShown }
{
    match command {
        SimulationCommand::Simulate => simulate_text(alloc, policy, trace),
        SimulationCommand::Waste => waste_text(alloc, policy, trace),
    }
}

/// The answer to texts within their limits of a command that judges a history.
pub fn judge(alloc: Global, command: HistoryCommand, texts: &Texts) -> Result<Answer, Stop>
    requires { AreShort texts.now }
    ensures answer { IfOk result (RepliesJudging (judging_of command)
        texts.now.policy.items texts.now.trace.items texts.now.history.items) }
    ensures shown { IfOk result CanBePut }
    ensures memory { IfErr result (λ why. why ≡ stop.Memory) }
{
    match accepted_in(check_text(alloc, texts.policy.as_slice())?) {
        Ok(kept) => Ok(Answer::Judged(judged_under(alloc, &kept, command, texts)?)),
        Err(refusal) => Ok(Answer::Checked(refusal)),
    }
}

/// What a command that judges a history says under an accepted policy.
fn judged_under(
    alloc: Global,
    accepted: &AcceptedPolicy,
    command: HistoryCommand,
    texts: &Texts,
) -> Result<HistoryAnswer, PlayMemory>
    requires trace { length texts.now.trace.items ≤ MAX_TRACE_BYTES }
    ensures judging { IfOk result (judging_of command (meaning_of accepted.now)
        texts.now.trace.items texts.now.history.items) }
    ensures shown { IfOk result IsShownHistory }
{
    let (policy, trace, history) = (
        accepted.policy(),
        texts.trace.as_slice(),
        texts.history.as_slice(),
    );
    match command {
        HistoryCommand::Replay => replay_texts(alloc, policy, trace, history),
        HistoryCommand::Report => report_texts(alloc, policy, trace, history),
        HistoryCommand::Migrate => migrate_texts(alloc, policy, trace, history),
        HistoryCommand::Why => why_texts(alloc, policy, trace, history),
    }
}

/// The answer of `make`: the text of the trace of so many threads that the seed determines.
pub fn make(alloc: Global, seed: u64, size: u32) -> Result<Answer, Stop>
    requires { IsTrue (is_size size) }
    ensures answer { IfOk result (IsGiven answer.Made (λ given. IsMade seed size given.items)) }
    ensures shown { IfOk result CanBePut }
    ensures memory { IfErr result (λ why. why ≡ stop.Memory) }
{
    Ok(Answer::Made(made_text(alloc, seed, size)?))
}

/// The text of that trace.
fn made_text(alloc: Global, seed: u64, size: u32) -> Result<Vec<u8>, Stop>
    requires { IsTrue (is_size size) }
    ensures text { IfOk result (λ text. IsMade seed size text.items) }
    ensures memory { IfErr result (λ why. why ≡ stop.Memory) }
{
    let trace = make_trace(alloc, seed, size).map_err(|_| Stop::Memory)?;
    Ok(print_trace(alloc, &trace)?)
}

/// The answer of `bench`: what the trace of so many threads, which the seed determines, comes to under the policy
/// `fair`. It is checked as any other policy.
pub fn bench(alloc: Global, seed: u64, size: u32) -> Result<Answer, Stop>
    requires { IsTrue (is_size size) }
    ensures answer { IfOk result (RepliesBench seed size) }
    ensures shown { IfOk result CanBePut }
    ensures memory { IfErr result (λ why. why ≡ stop.Memory) }
{
    let policy = fair_policy(alloc)?;
    match check_policy(alloc, policy, CHECK_BUDGET) {
        Ok(Verdict::Accepted(kept)) => {
            Ok(Answer::Benched(play_bench(alloc, &kept, seed, size)?))
        }
        Ok(verdict) => Ok(Answer::Checked(CheckAnswer::Judged(verdict))),
        Err(CheckFault::Memory(_policy)) => Err(Stop::Memory),
        // No obligation of it has too many cases.
        Err(CheckFault::Cases(_name, _count, _policy)) => unreachable!(),
    }
}

impl Answer {
    /// The status of the answer.
    pub fn status(&self) -> Status
        ensures { result ≡ status_of self.now }
    {
        match self {
            Answer::Checked(answer) => check_status(answer),
            Answer::Explained(answer) => explain_status(answer),
            Answer::Bounded(answer) => bound_status(answer),
            Answer::Rested(answer) => rest_status(answer),
            Answer::Waited(answer) => wait_status(answer),
            Answer::Exported(_) => Status::Done,
            Answer::Verified(answer) => verify_status(answer),
            Answer::Played(PlayAnswer::Broken(_)) => Status::BadText,
            Answer::Played(PlayAnswer::Played(PlayedCores::Whole(_))) => Status::Done,
            Answer::Played(PlayAnswer::Played(PlayedCores::Full(_))) => Status::HistoryFull,
            Answer::Simulated(answer) => simulation_status(answer),
            Answer::Judged(answer) => history_status(answer),
            Answer::Made(_) => Status::Done,
            Answer::Benched(_) => Status::Done,
            Answer::TooLong(_) => Status::TooMuch,
            Answer::BadWords => Status::BadWords,
        }
    }

    /// Writes the answer, a line at a time.
    pub fn put<S: Sink>(&self, out: &mut S) -> Result<(), PutFault>
        requires { CanBePut self.now }
        ensures { Puts (lines_of self.now) result (S.shown out.old) (S.shown out.new) }
    {
        match self {
            Answer::Checked(answer) => answer.put(out),
            Answer::Explained(answer) => answer.put(out),
            Answer::Bounded(answer) => answer.put(out),
            Answer::Rested(answer) => answer.put(out),
            Answer::Waited(answer) => answer.put(out),
            Answer::Exported(text) => put_text(out, text.as_slice()),
            Answer::Verified(answer) => answer.put(out),
            Answer::Played(answer) => answer.put(out),
            Answer::Simulated(answer) => answer.put(out),
            Answer::Judged(answer) => answer.put(out),
            Answer::Made(text) => put_all(out, text.as_slice()),
            Answer::Benched(told) => print_bench(out, told),
            Answer::TooLong(kind) => put_all(out, kind.too_long_line()),
            Answer::BadWords => put_all(out, b"bad words\n"),
        }
    }
}
