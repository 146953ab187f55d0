//! The numbers of the variables that an expression refers to.
//!
//! A place of the policy sees only some of them; those that it doesn't see are 0 there, but for the
//! weight of a thread, which is 1.

/// `self.nr`: how many threads the acting core has.
pub const SELF_NR: u32 = 0;

/// `self.load`: the load of the acting core.
pub const SELF_LOAD: u32 = 1;

/// `victim.nr` in balancing, `core.nr` in placement.
pub const OTHER_NR: u32 = 2;

/// `victim.load` in balancing, `core.load` in placement.
pub const OTHER_LOAD: u32 = 3;

/// `t.weight`
pub const WEIGHT: u32 = 4;

/// `t.fresh`: 1 where the thread enters just now, else 0.
pub const FRESH: u32 = 5;

/// The first attribute of the acting core, or of the core that holds a handler's thread.
pub const SELF_ATTRIBUTES: u32 = 6;

/// The first attribute of the other core.
pub const OTHER_ATTRIBUTES: u32 = 14;

/// The first attribute of the thread.
pub const THREAD_ATTRIBUTES: u32 = 22;
