//! The syntax of a policy's text: what a parser reads, a printer spells, and names are resolved in.
#![tactic(auto)]

mod levels;
mod syntax;

pub use levels::{LevelSyntax, OneLevelSyntax};
pub use syntax::{
    AddedSyntax, AttrSyntax, BatchSyntax, CaseSyntax, ConditionSyntax, ElectSyntax, ExprSyntax,
    FactorSyntax, HandlerSyntax, IntSyntax, KeySyntax, LoadSyntax, OperandSyntax, OrderSyntax,
    Owner, PlaceSyntax, RangeSyntax, SetSyntax, Syntax, TermSyntax, TimesSyntax,
};
