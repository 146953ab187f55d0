//! Policies as trees: what a policy's text says once its names, ranges and phases are known.
#![tactic(auto)]

mod copies;
pub mod laws;
mod trees;
mod typed;
pub mod variables;

pub use copies::{copy_of_cond, copy_of_expr, copy_of_order};
pub use trees::{Cmp, Cond, Expr};
pub use typed::{
    Attr, AttrList, Batch, Case, CaseList, Event, HandlerList, Key, Load, Name, Order, PlaceRule,
    Policy, Put, Set, SetList,
};
