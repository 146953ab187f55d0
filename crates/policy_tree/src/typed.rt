//! A policy: what weighs a thread, its attributes, where threads are placed, which runs next, what its
//! events do, and the three phases of balancing: filter, choice and steal.

ghost use Rattle.std.specs.Prelude.{◌≡◌, map};
ghost use Rattle.policy_tree.specs.Meaning.{case_tree, cases_on, handler_trees};

use crate::trees::{Cond, Expr};
use lists::Items;

/// The bytes of a name.
pub type Name = Items<u8>;
/// Attributes in the order of their declaration.
pub type AttrList = Items<Attr>;
/// The assignments of a case, in the order in which they are carried out.
pub type SetList = Items<Set>;
/// The cases of a handler, in the order of the text.
pub type CaseList = Items<Case>;
/// The keys of an order, the first of them the most significant. Without a key the earlier comes first.
pub type Order = Items<Key>;

/// A whole policy.
#[derive(Drop)]
pub struct Policy {
    pub name: Name,
    pub load: Load,
    pub core_attrs: AttrList,
    pub thread_attrs: AttrList,
    pub place: PlaceRule,
    pub elect: Order,
    pub handlers: HandlerList,
    pub filter: Cond,
    pub choose: Order,
    pub steal: Order,
    /// Without a batch a steal moves one thread.
    pub batch: Option<Batch>,
}

/// What a thread adds to the load of its core.
#[derive(Clone, Copy)]
pub enum Load {
    /// 1, whatever its weight.
    Count,
    /// Its weight, from `lo` to `hi`.
    Weight { lo: u32, hi: u32 },
}

/// An attribute of cores or of threads, a number from `lo` to `hi` that begins as `start`.
#[derive(Drop)]
pub struct Attr {
    pub name: Name,
    pub lo: i32,
    pub hi: i32,
    pub start: i32,
}

/// Where a thread that enters or wakes is placed.
#[derive(Drop)]
pub enum PlaceRule {
    /// On the core that lets it in.
    Here,
    /// On the core with the least value, of equals the one with the lowest number.
    Least(Expr),
}

/// One key of an order.
#[derive(Drop)]
pub enum Key {
    /// The lesser value comes first.
    Least(Expr),
    /// The greater value comes first.
    Greatest(Expr),
    /// What the condition holds of comes first.
    Prefer(Cond),
}

/// When a steal goes on to another thread.
#[derive(Drop)]
pub struct Batch {
    /// What must hold of thief and victim, as the moves so far left them, and of the thread that is next.
    pub cond: Cond,
    /// The most threads that one steal moves, from 1 to `MAX_STOLEN`.
    pub limit: u32,
}

/// What a thread may meet.
#[derive(Clone, Copy, PartialEq, Eq)]
pub enum Event {
    /// It comes to a core.
    Enqueue,
    /// It ran a unit, and its burst goes on.
    Tick,
    /// Its burst ended, and it yields.
    Yield,
    /// Its burst ended, and it blocks.
    Block,
}

/// Where a case puts the thread.
#[derive(Clone, Copy, PartialEq, Eq)]
pub enum Put {
    /// At the end of the queue.
    Queue,
    /// It stays the current thread.
    Keep,
    /// At the end of the blocked list.
    Block,
}

/// The assignment of a value to a thread attribute, by its number.
#[derive(Drop)]
pub struct Set {
    pub attr: u32,
    pub expr: Expr,
}

/// One case of a handler: where the guard holds, the assignments are carried out and the thread is put.
#[derive(Drop)]
pub struct Case {
    pub guard: Cond,
    pub sets: SetList,
    pub put: Put,
}

/// The cases of each event.
#[derive(Drop)]
pub struct HandlerList {
    pub on_enqueue: CaseList,
    pub on_tick: CaseList,
    pub on_yield: CaseList,
    pub on_block: CaseList,
}

impl HandlerList {
    /// The handlers with these cases. It takes no memory.
    pub fn new(
        on_enqueue: CaseList,
        on_tick: CaseList,
        on_yield: CaseList,
        on_block: CaseList,
    ) -> HandlerList
        ensures enqueue { result.on_enqueue ≡ on_enqueue }
        ensures tick { result.on_tick ≡ on_tick }
        ensures yields { result.on_yield ≡ on_yield }
        ensures block { result.on_block ≡ on_block }
    {
        HandlerList {
            on_enqueue,
            on_tick,
            on_yield,
            on_block,
        }
    }

    /// The cases of that event.
    pub fn cases(&self, event: Event) -> &CaseList
        ensures { map case_tree result.now ≡ cases_on (handler_trees self.now) event }
    {
        match event {
            Event::Enqueue => &self.on_enqueue,
            Event::Tick => &self.on_tick,
            Event::Yield => &self.on_yield,
            Event::Block => &self.on_block,
        }
    }
}
