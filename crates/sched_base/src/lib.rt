//! What every crate about cores and threads shares: the numbers that name them, a thread's record,
//! the positions that were read, the threads that one steal moves, and the limits.
#![tactic(auto)]

pub mod laws;
pub mod limits;
pub mod reads;
pub mod stolen;
pub mod task;

pub use crate::limits::{
    CHECK_BUDGET, DEFAULT_ENTRIES, MAX_ATTRIBUTE, MAX_ATTRIBUTES, MAX_BLOCK_ROUNDS, MAX_BURSTS,
    MAX_CASES, MAX_CERTIFICATE_BYTES, MAX_COEFFICIENT, MAX_COMPARISONS, MAX_CORES, MAX_DIGITS,
    MAX_END, MAX_ENTRIES, MAX_HISTORY_BYTES, MAX_KEYS, MAX_LEVEL_COMPARISONS, MAX_LEVEL_KEYS,
    MAX_LEVELS, MAX_LOAD, MAX_NAME_BYTES, MAX_NESTING, MAX_OPERATORS, MAX_ORDER_CORES,
    MAX_POLICY_BYTES, MAX_ROUNDS, MAX_ROW_BOUND, MAX_ROW_COEFFICIENT, MAX_ROWS, MAX_SETS,
    MAX_SPLITS, MAX_STOLEN, MAX_SYSTEM_CASES, MAX_THREADS, MAX_TRACE_BYTES, MAX_UNITS,
    MAX_VARIABLES, MAX_WEIGHT, MAX_WORKERS,
};
pub use crate::reads::Reads;
pub use crate::stolen::Stolen;
pub use crate::task::{CoreId, Place, Pos, Task, ThreadId};
