//! What has to be kept of a history to judge its next entry, and to add it.

ghost use Rattle.std.specs.Prelude.{◌≡◌, ◌+◌, ◌&&◌, ◌<◌, ◌≤◌, ℕ, IfOk, List, [], false, length, nat_lt, not};
ghost use Rattle.std.specs.Prelude.{slice_index_or};
ghost use Rattle.policy_tree.specs.Meaning.{Meaning};
ghost use Rattle.round_model.specs.declared.entry.Entry.{Entry};
ghost use Rattle.round_model.specs.declared.plan.Planned.{Planned};
ghost use Rattle.round_model.specs.After.{after};
ghost use Rattle.round_model.specs.Cores.{listed, opening_state};
ghost use Rattle.round_model.specs.Fits.{Fits};
ghost use Rattle.std.specs.List.{list_all, list_any};
ghost use Rattle.round_model.specs.Legal.{is_complete as is_complete_after, is_due as is_due_after, rounds_begun};
ghost use Rattle.round_model.specs.Limits.{IsWithinLimits};
ghost use Rattle.round_model.specs.Reads.{value_read};
ghost use Rattle.round_judge.specs.Past.{IsKeptPosition, IsPastOf, IsWindow, StandsFor, is_flagged, turn_of};

use crate::directory::{Directory, directory_of};
use lists::Items;
use round_model::state::CountAndLoad;
use round_model::{ModelCore, ModelMemory, Plan, State};
use sched_base::{CoreId, MAX_CORES, MAX_THREADS, Pos, ThreadId};
use std::alloc::Global;

/// How far a core has come in the open round.
#[derive(Clone, Copy)]
pub struct Turn {
    pub worked: bool,
    pub attempted: bool,
}

/// A thread of the plan that is to enter in the open round.
#[derive(Clone, Copy)]
pub struct Arrival {
    pub id: ThreadId,
    /// The core that lets it in.
    pub core: CoreId,
}

/// What was to be seen of each core at one position.
pub(crate) type Row = [CountAndLoad; MAX_CORES];

/// What is kept of a legal history of a plan: the cores as they are, how many entries there are, how many rounds have
/// begun, how far each core has come in the open one, and what was to be seen of each core at each of its positions.
///
/// A contract says which histories a past stands for.
#[derive(Drop)]
pub struct Past {
    pub(crate) state: State,
    pub(crate) entries: u32,
    pub(crate) rounds: u32,
    pub(crate) turns: Items<Turn>,
    pub(crate) arrivals: Items<Arrival>,
    pub(crate) rows: Items<Row>,
    pub(crate) ended: Items<bool>,
    pub(crate) directory: Directory,
}

impl Past {
    /// The past of the empty history.
    pub fn new(alloc: Global, plan: &Plan) -> Result<Past, ModelMemory>
        requires limits { IsWithinLimits plan.now }
        requires consts_each { length plan.now.consts ≡ plan.now.cores }
        requires few_threads { length plan.now.threads ≤ MAX_THREADS }
        ensures stands { IfOk result (λ past. (p : Meaning) → StandsFor p plan.now past []) }
        ensures belongs { IfOk result (λ past. (p : Meaning) → Fits p plan.now → IsPastOf p plan.now past) }
    {
        let state = opening(alloc, plan)?;
        let turns = Items::from_vec(Vec::from_elem(alloc, Turn::begun(), plan.cores as usize)?);
        let mut rows = Items::from_vec(Vec::new(alloc));
        rows.push(NOTHING_SEEN)?;
        let ended = Items::from_vec(Vec::from_elem(alloc, false, MAX_THREADS as usize + 1)?);
        let directory = directory_of(alloc, plan)?;
        let arrivals = Items::from_vec(Vec::new(alloc));
        Ok(Past {
            state,
            entries: 0,
            rounds: 0,
            turns,
            arrivals,
            rows,
            ended,
            directory,
        })
    }

    /// The cores as the history leaves them.
    pub fn state(&self) -> &State
        ensures { (p : Meaning) (plan : Plan) (history : List Entry) → StandsFor p plan self.now history →
            result.now ≡ listed plan.cores (after p plan history) }
    {
        &self.state
    }

    /// The number of entries so far.
    pub fn entries(&self) -> u32
        ensures entries { result ≡ self.now.entries }
        ensures length { (p : Meaning) (plan : Plan) (history : List Entry) → StandsFor p plan self.now history →
            result ≡ length history }
    {
        self.entries
    }

    /// The number of rounds so far, the open one included.
    pub fn rounds(&self) -> u32
        ensures { (p : Meaning) (plan : Plan) (history : List Entry) → StandsFor p plan self.now history →
            result ≡ rounds_begun history }
    {
        self.rounds
    }

    /// The position just after the last Round.
    pub(crate) fn start(&self) -> Pos
        requires { IsWindow self.now }
        ensures { result + length self.now.rows ≡ self.now.entries + 1 }
    {
        self.entries + 1 - self.rows.len()
    }

    /// Thread count and load of the core after so many entries, of which the last Round is one.
    pub fn seen_at(&self, core: CoreId, position: Pos) -> CountAndLoad
        requires window { IsWindow self.now }
        requires core { core < MAX_CORES }
        requires position { IsKeptPosition self.now position }
        ensures { (p : Meaning) (plan : Plan) (history : List Entry) → StandsFor p plan self.now history →
            core < plan.cores → result ≡ value_read p plan history core position }
    {
        self.row_at(position)[core as usize]
    }

    /// What was to be seen of the cores after so many entries.
    fn row_at(&self, position: Pos) -> &Row
        requires window { IsWindow self.now }
        requires position { IsKeptPosition self.now position }
        ensures { (k : ℕ) → self.now.entries + k + 1 ≡ position + length self.now.rows →
            result.now ≡ slice_index_or self.now.rows k [] }
    {
        self.rows.get(position - self.start())
    }

    /// How far the core has come in the open round.
    pub fn turn(&self, core: CoreId) -> Turn
        requires { core < length self.now.turns }
        ensures { (p : Meaning) (plan : Plan) (history : List Entry) → StandsFor p plan self.now history →
            core < plan.cores → result ≡ turn_of history core }
    {
        *self.turns.get(core)
    }

    /// Whether each core has made its attempt of the last round. Before the first round nothing is open.
    pub fn is_complete(&self) -> bool
        ensures { (p : Meaning) (plan : Plan) (history : List Entry) → StandsFor p plan self.now history →
            result ≡ is_complete_after plan history }
    {
        self.rounds == 0 || have_attempted(self.turns.as_slice())
    }
}

/// Whether each of these cores has made its attempt.
fn have_attempted(turns: &[Turn]) -> bool
    ensures { result ≡ list_all (λ (turn : Turn). turn.attempted) turns.now }
{
    turns.iter().all(|turn| turn.attempted)
}

impl Turn {
    /// As a round begins.
    pub(crate) fn begun() -> Turn
        ensures { result ≡ record { worked = false; attempted = false } }
    {
        Turn {
            worked: false,
            attempted: false,
        }
    }
}

/// Of no core anything is to be seen.
const NOTHING_SEEN: Row = [CountAndLoad { nr: 0, load: 0 }; MAX_CORES];

/// All cores empty, with their constants.
pub fn opening(alloc: Global, plan: &Plan) -> Result<State, ModelMemory>
    requires few_cores { plan.now.cores ≤ MAX_CORES }
    requires consts_each { length plan.now.consts ≡ plan.now.cores }
    ensures { IfOk result (λ state. state ≡ listed plan.now.cores (opening_state plan.now)) }
{
    let mut state = State::from_vec(Vec::new(alloc));
    for core in 0..plan.cores {
        state.push(ModelCore::idle(alloc, *plan.consts.get(core)))?;
    }
    Ok(state)
}

/// Whether a next round is due after the history that the past stands for.
pub fn round_due(plan: &Plan, past: &Past) -> bool
    ensures { (p : Meaning) (history : List Entry) → StandsFor p plan.now past.now history →
        result ≡ is_due_after plan.now history }
{
    is_due_by(plan, past.rounds, &past.ended)
}

/// Whether a next round is due where so many have begun, and the flags of the threads that have ended are set.
pub fn is_due_by(plan: &Plan, rounds: u32, ended: &Items<bool>) -> bool
    ensures { result ≡ (nat_lt rounds plan.now.rounds
        && list_any (λ (t : Planned). not (is_flagged ended.now t.id)) plan.now.threads) }
{
    rounds < plan.rounds && are_left(plan, ended)
}

/// Whether some thread of the plan hasn't ended.
fn are_left(plan: &Plan, ended: &Items<bool>) -> bool
    ensures { result ≡ list_any (λ (t : Planned). not (is_flagged ended.now t.id)) plan.now.threads }
{
    let threads = plan.threads.as_slice();
    threads.iter().any(|thread| !has_ended(ended, thread.id))
}

/// Whether the flag of the thread is set.
fn has_ended(ended: &Items<bool>, id: ThreadId) -> bool
    ensures { result ≡ is_flagged ended.now id }
{
    id < ended.len() && *ended.get(id)
}
