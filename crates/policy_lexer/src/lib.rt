//! Cuts the text of a policy into its tokens.
#![tactic(auto)]

mod fault;
mod laws;
mod piece;
mod reading;
mod scanning;
mod token;

pub use fault::LexFault;
pub use laws::law_one_reading;
pub use reading::lex;
pub use scanning::fault_of;
pub use token::{Symbol, Token, TokenKind, Tokens};
