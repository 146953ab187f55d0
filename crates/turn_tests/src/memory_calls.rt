//! A core of a history in memory.

use policy_tree::Policy;
use round_judge::Past;
use round_model::{History, Plan};
use sched_base::CoreId;
use std::alloc::Global;

/// A core of a history in memory: nobody else acts while it takes its turn.
///
/// It reads and adds what serial play would, and rests on no table. Where memory lacks, an entry waits for it.
#[derive(Drop)]
pub struct MemoryCalls<'a> {
    pub(crate) alloc: Global,
    pub(crate) policy: &'a Policy,
    pub(crate) plan: &'a Plan,
    /// Whose turn it is.
    pub(crate) core: CoreId,
    /// What is kept of the history.
    pub(crate) past: Past,
    /// The entries so far, of all cores.
    pub(crate) history: History,
    /// Whether the core has found that none of its threads is due.
    pub(crate) none_due: bool,
}
