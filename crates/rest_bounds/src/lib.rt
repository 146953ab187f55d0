//! How soon cores come to rest, as far as a policy's text tells it: a condition that is computed, under which each
//! restless round raises a core with the fewest threads.
#![tactic(auto)]

mod following;
mod growing;
mod laws;

pub use following::raises_lowest;
pub use laws::law_raises_lowest;
