//! How long a thread waits, as far as a policy's text tells it: which of the laws of waiting applies to the policy.
#![tactic(auto)]

mod attributes;
mod classes;
mod laws;
mod rules;

pub use classes::{WaitClass, wait_class};
pub use laws::{law_bounds, law_classes, law_queue};
