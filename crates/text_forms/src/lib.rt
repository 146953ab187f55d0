//! Forms that texts of lines share: the lines of a text, the words of a line, numbers in decimal.
#![tactic(auto)]

mod cuts;
mod fronts;
pub mod laws;
mod lines;
mod numbers;
mod words;

pub use fronts::{cut, front};
pub use lines::first_line;
pub use numbers::{exact_number_in, number_in};
pub use words::first_word;
