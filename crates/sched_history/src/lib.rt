//! The text of a history: a line for each of its entries.
#![tactic(auto)]

mod forms;
mod laws;
mod printing;

pub use forms::{FIRST_FORMAT_CORES, LineForm, start_behind};
pub use laws::law_printable;
pub use printing::{print_entry, print_header, put_entry, put_header, put_history};
