//! The grammar of policies and of level texts: what their tokens are, which tokens are which syntax, and which limits
//! a syntax keeps.
#![tactic(auto)]

mod fault;
mod language;
mod laws;
mod limits;
mod terminal;

pub use fault::ParseFault;
pub use language::Language;
pub use laws::{law_each_has_answer, law_each_has_level_answer, law_one_level_tree, law_one_tree};
pub use limits::{Limits, POLICY_LIMITS};
pub use terminal::{Lexeme, Terminal};
