//! The limits of the project, by the names under which code and contracts cite them.

/// The most cores of a plan. A plan has at least one.
pub const MAX_CORES: usize = 64;

/// The most workers that play the cores of a plan. There is at least one.
pub const MAX_WORKERS: usize = 64;

/// The most threads that one steal moves.
pub const MAX_STOLEN: usize = 8;

/// The most levels of a policy that balances by levels.
pub const MAX_LEVELS: usize = 3;

/// The most comparisons of a level's filter.
pub const MAX_LEVEL_COMPARISONS: usize = 3;

/// The most keys by which a policy that balances by levels chooses.
pub const MAX_LEVEL_KEYS: usize = 2;

/// The most threads of a plan, and the greatest number of a thread. The least number is 1.
pub const MAX_THREADS: u32 = 1_023;

/// The greatest weight of a thread. The least is 1.
pub const MAX_WEIGHT: u32 = 1_048_575;

/// The greatest load of a core: as many threads as there can be, each of the greatest weight.
pub const MAX_LOAD: u32 = 1_072_692_225;

/// The most rounds of a plan, and the greatest number of a round. The least number is 1.
pub const MAX_ROUNDS: u32 = 4_096;

/// The most entries of a history.
pub const MAX_ENTRIES: u32 = 65_536;

/// The limit on entries of a plan that names none.
pub const DEFAULT_ENTRIES: u32 = 8_192;

/// The most bursts of a thread's program. A program has at least one.
pub const MAX_BURSTS: usize = 16;

/// The most units of a burst. A burst has at least one.
pub const MAX_UNITS: u32 = 1_048_575;

/// The most rounds that a burst blocks its thread for. The fewest are 1.
pub const MAX_BLOCK_ROUNDS: u32 = 4_096;

/// The most core numbers of an order line. A line has at least one.
pub const MAX_ORDER_CORES: usize = 256;

/// The most attributes of one kind that a policy declares, and so the values that a core or a
/// thread has room for.
pub const MAX_ATTRIBUTES: usize = 8;

/// The greatest magnitude of an attribute's value.
pub const MAX_ATTRIBUTE: i32 = 1_048_575;

/// The most cases of a handler.
pub const MAX_CASES: usize = 8;

/// The most assignments of a case.
pub const MAX_SETS: usize = 8;

/// The most keys of an order.
pub const MAX_KEYS: usize = 4;

/// The most comparisons of a condition.
pub const MAX_COMPARISONS: usize = 16;

/// The most operators of an expression.
pub const MAX_OPERATORS: usize = 32;

/// The deepest nesting of parentheses, `not` and unary `-` in a policy's text.
pub const MAX_NESTING: usize = 32;

/// The greatest magnitude of a coefficient or a constant in an expression's linear form.
pub const MAX_COEFFICIENT: i64 = 1_099_511_627_776;

/// The variables of an expression are numbered from 0 and below this; a system has at most as many.
pub const MAX_VARIABLES: usize = 30;

/// The most conjunctive cases of an obligation.
pub const MAX_SYSTEM_CASES: u32 = 256;

/// The most rows of a system.
pub const MAX_ROWS: usize = 256;

/// The greatest magnitude of an end of a variable's range in a system.
pub const MAX_END: u64 = 2_199_023_255_552;

/// The greatest magnitude of a coefficient in a row of a system.
pub const MAX_ROW_COEFFICIENT: u64 = 4_398_046_511_104;

/// The greatest magnitude of the right side of a row of a system.
pub const MAX_ROW_BOUND: u64 = 4_611_686_018_427_387_904;

/// The most splits that stand one within another in a certificate that is written or read.
pub const MAX_SPLITS: u32 = 128;

/// The most points of a system that the checker promises to decide.
pub const CHECK_BUDGET: u64 = 65_536;

/// The most bytes of a word in a policy's text, and so of a name.
pub const MAX_NAME_BYTES: u32 = 32;

/// The most digits of a number in a line of a trace, leading zeros counted.
pub const MAX_DIGITS: usize = 19;

/// The most bytes of a policy's text.
pub const MAX_POLICY_BYTES: u64 = 65_536;

/// The most bytes of a trace's text.
pub const MAX_TRACE_BYTES: u64 = 4_194_304;

/// The most bytes of a history's text.
pub const MAX_HISTORY_BYTES: u64 = 33_554_432;

/// The most bytes of a text of certificates.
pub const MAX_CERTIFICATE_BYTES: u64 = 33_554_432;

const _: () = prove!(MAX_LOAD == MAX_THREADS * MAX_WEIGHT);
