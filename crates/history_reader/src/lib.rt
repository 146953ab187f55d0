//! Reads the text of a history: a line for each of its entries, in the one spelling that it is printed in.
#![tactic(auto)]

mod fault;
mod laws;
mod line;
mod numbers;
mod reading;
mod reads;
mod rests;
mod work;

pub use fault::HistoryFault;
pub use laws::{law_bad_header, law_one_reading};
pub use reading::read_history;
