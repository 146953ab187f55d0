//! Reads the syntax of a policy, or of a level text, from its tokens.
#![tactic(auto)]

mod conditions;
mod expressions;
mod handlers;
mod levels;
mod orders;
mod policies;
mod reading;
mod sections;
mod source;
mod words;

pub use policy_grammar::{Language, Limits, POLICY_LIMITS, ParseFault};
pub use reading::{language_of, parse, parse_levels};
