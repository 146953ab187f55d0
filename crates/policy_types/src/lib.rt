//! Names, ranges and phases: which policy a syntax is, plain or by levels, or the first rule of theirs that it breaks.
#![tactic(auto)]

mod attributes;
mod conditions;
mod declarations;
mod expressions;
mod fault;
mod handlers;
mod levels;
mod parts;
mod products;
mod resolution;
mod scope;
mod sites;
mod sums;

pub use fault::TypeFault;
pub use levels::resolve_levels;
pub use resolution::resolve;
