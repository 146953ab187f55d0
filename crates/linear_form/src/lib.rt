//! Systems of linear rows over bounded whole-number variables, and what it means to solve one.
#![tactic(auto)]

mod form;
mod shape;
mod system;
mod value;

pub use form::{Bound, Point, Row, Term, TermList, ValueList};
pub use system::{AtomFault, System};
