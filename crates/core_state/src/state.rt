//! One core.

ghost use Rattle.std.specs.Prelude.{◌≡◌, ◌<◌, ◌≤◌, ◌++◌, [], ◌∷◌, Contains, IfOk, IsSome, MatchOption, None};
ghost use Rattle.std.specs.Prelude.{Some, length, option_map};
ghost use Rattle.sched_base.specs.declared.task.Task.{Task};
ghost use Rattle.policy_tree.specs.Meaning.{meaning_of, order_tree};
ghost use Rattle.policy_eval.specs.Fitting.{IsTask};
ghost use Rattle.policy_eval.specs.Obligations.{MeetsHandlerObligations};
ghost use Rattle.policy_eval.specs.Ranges.{AreIn, attribute_ranges};
ghost use Rattle.policy_eval.specs.Resolved.{IsResolved};
ghost use Rattle.round_model.specs.Bounds.{CoreInBounds};
ghost use Rattle.round_model.specs.Bursts.{HaveBursts};
ghost use Rattle.round_model.specs.Cores.{load_of, opening_state, thread_count};
ghost use Rattle.round_model.specs.Fits.{Fits};
ghost use Rattle.round_model.specs.Moves.{admitted, blocked_of, handed, queued_of, received, released};
ghost use Rattle.round_model.specs.Moves.{with_task};
ghost use Rattle.round_model.specs.Scenes.{waking_next};
ghost use Rattle.round_model.specs.Work.{IsOutcomeOfWork, core_after_work, met};
ghost use Rattle.run_queue.specs.Tasks.{IsSeenTask};

use crate::logged::Logged;
use crate::memory::StateMemory;
use crate::steps::{blocked_place, did_of};
use policy_eval::apply_case;
use policy_tree::{Event, Policy, Put};
use round_model::{Blocked, Did, Entry, Meeting, Plan, meeting_of, next_burst, place_after};
use run_queue::Queue;
use sched_base::{CoreId, MAX_ATTRIBUTES, MAX_LOAD, MAX_ROUNDS, MAX_THREADS, Pos, Task, ThreadId};
use std::alloc::Global;
use std::marker::Model;

/// A core that runs. Only `open` takes memory.
#[derive(Drop)]
pub struct CoreState {
    current: Option<Task>,
    queue: Queue,
    blocked: Vec<Blocked>,
    consts: [i32; MAX_ATTRIBUTES],
    log: Vec<Logged>,
}

impl Model for CoreState {
    ghost use Rattle.std.specs.Prelude.{vec_capacity};
    ghost use Rattle.std.specs.Coded.{codes};
    ghost use Rattle.run_queue.specs.Code.Codes.{key_code};
    ghost use Rattle.core_state.specs.Views.{CoreView};

    ghost Value = { CoreView };

    ghost coded = { Prim.hlevel (codes, key_code) };

    ghost view = { λ s. record {
      core = record { current = s.current; queue = s.queue.tasks; blocked = s.blocked.items; consts = s.consts };
      log = s.log.items;
      order = s.queue.order;
      room = s.queue.room;
      blocked_room = vec_capacity s.blocked;
      log_room = vec_capacity s.log;
    } };
}

impl CoreState {
    ghost use Rattle.core_state.specs.Logs.{after_last};
    ghost use Rattle.core_state.specs.Views.{HasRoom, HasRoomForAll};
    ghost use Rattle.core_state.specs.Code.Steps.{HasNoNext, TakesNext};

    /// The core of that number before the first entry. Each thread of the plan has room there, and each entry.
    #[tactic(auto, unfolding(round_model::specs::Cores::opening_state))]
    pub fn open(
        alloc: Global,
        policy: &Policy,
        plan: &Plan,
        core: CoreId,
    ) -> Result<CoreState, StateMemory>
        requires fits { Fits (meaning_of policy.now) plan.now }
        requires core { core < plan.now.cores }
        ensures { IfOk result (λ state. state ≡ record {
          core = opening_state plan.now core;
          log = [];
          order = order_tree policy.now.elect;
          room = length plan.now.threads;
          blocked_room = length plan.now.threads;
          log_room = plan.now.limit;
        }) }
    {
        let threads = plan.threads.len();
        Ok(CoreState {
            current: None,
            queue: Queue::with_room(alloc, threads, &policy.elect)?,
            blocked: Vec::with_capacity(alloc, threads as usize)?,
            consts: *plan.consts.get(core),
            log: Vec::with_capacity(alloc, plan.limit as usize)?,
        })
    }

    /// The task comes to the core by its enqueue event; `fresh` where it enters just now.
    pub fn admit(&mut self, policy: &Policy, task: Task, fresh: bool)
        requires policy { IsResolved (meaning_of policy.now) }
        requires handlers { MeetsHandlerObligations (meaning_of policy.now) }
        requires task { IsTask (meaning_of policy.now) task }
        requires consts { AreIn (attribute_ranges policy.now.core_attrs) self.old.core.consts }
        requires room { HasRoom self.old }
        ensures { self.new ≡ record self.old { core = admitted (meaning_of policy.now) fresh task self.old.core } }
    {
        let (task, place) = apply_case(policy, Event::Enqueue, fresh, task, &self.consts);
        self.put(task, place, 0);
    }

    /// The task is put there, to wake in that round where it blocks.
    fn put(&mut self, task: Task, place: Put, wake: u32)
        requires task { IsSeenTask task }
        requires room { HasRoom self.old }
        ensures { self.new ≡ record self.old { core = with_task place wake task self.old.core } }
    {
        match place {
            Put::Queue => self.queue.push(task),
            Put::Keep => self.current = Some(task),
            Put::Block => self.blocked.push_reserved(Blocked { task, wake }),
        }
    }

    /// One unit of work in that round. It says what became of the thread that ran.
    pub fn work(&mut self, policy: &Policy, plan: &Plan, round: u32) -> Did
        requires fits { Fits (meaning_of policy.now) plan.now }
        requires handlers { MeetsHandlerObligations (meaning_of policy.now) }
        requires order { self.old.order ≡ (meaning_of policy.now).elect }
        requires bounds { CoreInBounds (meaning_of policy.now) self.old.core }
        requires bursts { HaveBursts plan.now self.old.core }
        requires room { HasRoomForAll self.old }
        requires round { round ≤ MAX_ROUNDS }
        ensures core { self.new ≡ record self.old {
          core = core_after_work (meaning_of policy.now) plan.now round self.old.core;
        } }
        ensures did { IsOutcomeOfWork (meaning_of policy.now) plan.now round self.old.core result }
    {
        let Some(task) = self.take_next() else {
            return Did::Nothing;
        };
        let Some(burst) = next_burst(plan, &task) else {
            unreachable!()
        };
        let mut ran = task;
        ran.place = place_after(burst, task.place);
        match meeting_of(burst, task.place) {
            Meeting::Tick => self.meet(policy, ran, Event::Tick, 0),
            Meeting::Yield => self.meet(policy, ran, Event::Yield, 0),
            Meeting::Block(rounds) => self.meet(policy, ran, Event::Block, round + rounds),
            Meeting::End => Did::Ended(ran.id),
        }
    }

    /// Takes the task that runs next out of the core: the current one, or else the best that is queued.
    fn take_next(&mut self) -> Option<Task>
        ensures { MatchOption result (HasNoNext self.old self.new) (TakesNext self.old self.new) }
    {
        match self.current.take() {
            Some(task) => Some(task),
            None => self.queue.pop_best(),
        }
    }

    /// The task, which stands nowhere, meets the event. It may wake in that round where it blocks.
    fn meet(&mut self, policy: &Policy, task: Task, event: Event, wake: u32) -> Did
        requires policy { IsResolved (meaning_of policy.now) }
        requires handlers { MeetsHandlerObligations (meaning_of policy.now) }
        requires task { IsTask (meaning_of policy.now) task }
        requires consts { AreIn (attribute_ranges policy.now.core_attrs) self.old.core.consts }
        requires room { HasRoom self.old }
        ensures core { self.new ≡ record self.old {
          core = (met (meaning_of policy.now) event wake task self.old.core).core;
        } }
        ensures did { Contains (met (meaning_of policy.now) event wake task self.old.core).dids result }
    {
        let (task, place) = apply_case(policy, event, false, task, &self.consts);
        self.put(task, place, wake);
        did_of(task.id, place)
    }

    /// The first blocked thread that may wake in that round.
    #[tactic(auto, unfolding(round_model::specs::Scenes::waking_next))]
    pub fn due(&self, round: u32) -> Option<ThreadId>
        ensures { result ≡ option_map (λ b. b.task.id) (waking_next round self.now.core) }
    {
        for blocked in self.blocked.as_slice() {
            if blocked.wake <= round {
                return Some(blocked.task.id);
            }
        }
        None
    }

    /// Takes the blocked thread of that number out.
    pub fn release_blocked(&mut self, thread: ThreadId) -> Task
        requires { IsSome (blocked_of thread self.old.core) }
        ensures task { option_map (λ b. b.task) (blocked_of thread self.old.core) ≡ Some result }
        ensures core { self.new ≡ record self.old { core = released thread self.old.core } }
    {
        let Some(place) = blocked_place(self.blocked.as_slice(), thread) else {
            unreachable!()
        };
        self.blocked.remove(place).task
    }

    /// Takes the earliest queued task of that number out.
    #[tactic(auto, unfolding(round_model::specs::Moves::handed))]
    pub fn hand_over(&mut self, thread: ThreadId) -> Task
        requires { IsSome (queued_of thread self.old.core) }
        ensures task { queued_of thread self.old.core ≡ Some result }
        ensures core { self.new ≡ record self.old { core = handed thread self.old.core } }
    {
        let Some(stolen) = self.queue.take_thread(thread) else {
            unreachable!()
        };
        stolen
    }

    /// The task comes to the queue's end. No handler runs.
    #[tactic(auto, unfolding(round_model::specs::Moves::received))]
    pub fn receive(&mut self, task: Task)
        requires room { length self.old.core.queue < self.old.room }
        requires task { IsSeenTask task }
        ensures { self.new ≡ record self.old { core = received task self.old.core } }
    {
        self.queue.push(task);
    }

    /// The entry comes to the log's end.
    pub fn log(&mut self, at: Pos, entry: Entry)
        requires room { length self.old.log < self.old.log_room }
        requires later { after_last 0 self.old.log ≤ at }
        ensures { self.new ≡ record self.old { log = self.old.log ++ record { at = at; entry = entry } ∷ [] } }
    {
        self.log.push_reserved(Logged { at, entry });
    }

    /// The number of threads that are current or queued.
    pub fn nr(&self) -> u32
        requires { thread_count self.now.core ≤ MAX_THREADS }
        ensures { result ≡ thread_count self.now.core }
    {
        self.queue.len() + u32::from(self.current.is_some())
    }

    /// The weights of the threads that are current or queued, added up.
    pub fn load(&self) -> u64
        requires { load_of self.now.core ≤ MAX_LOAD }
        ensures { result ≡ load_of self.now.core }
    {
        match self.current {
            None => self.queue.load(),
            Some(task) => u64::from(task.weight) + self.queue.load(),
        }
    }

    /// The queue.
    pub fn queue(&self) -> &Queue
        ensures tasks { result.now.tasks ≡ self.now.core.queue }
        ensures order { result.now.order ≡ self.now.order }
        ensures room { result.now.room ≡ self.now.room }
    {
        &self.queue
    }

    /// The entries of the log in order.
    pub fn entries(&self) -> &[Logged]
        ensures { result.now ≡ self.now.log }
    {
        self.log.as_slice()
    }
}
