//! Reads the text of a policy, plain or by levels: the policy that it spells, or the one fault that it has.
#![tactic(auto)]

mod fault;
mod languages;
mod laws;
mod places;
mod reading;

pub use fault::{FaultKind, PolicyFault, TextFault};
pub use laws::{law_each_has_answer, law_one_answer, law_spells_resolved};
pub use reading::read_policy;
