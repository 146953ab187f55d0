//! Why a history isn't legal: which rule its first illegal entry is the first to break, what should stand there, and
//! which entries might have come in its place. Of a history that stops too soon it says what may come.
//!
//! A rule is named as the judge asks for it, and what it says is defined by the model alone.
#![tactic(auto)]

mod attempts;
mod coming;
mod explaining;
mod laws;
mod next;
mod placing;
mod printing;
mod reading;
mod reason;
mod rounds;
mod units;
mod why;

pub use coming::Coming;
pub use explaining::{Explanation, explain};
pub use laws::law_rules;
pub use next::next_entries;
pub use printing::{numbered, print_coming};
pub use reason::Reason;
pub use why::why_not;
