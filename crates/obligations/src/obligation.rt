//! A statement as its variables and its systems.

use crate::names::ObName;
use linear_form::System;
use lists::Items;

/// Variables of a policy by their numbers, rising.
pub type VarList = Items<u32>;

/// Systems in the order of the cases that they come from.
pub type SystemList = Items<System>;

/// A statement: it holds exactly where none of its systems has a solution in whole numbers.
#[derive(Drop)]
pub struct Question {
    /// Which variable of the policy each variable of the systems is.
    pub vars: VarList,
    /// One for each conjunctive case in which the statement fails.
    pub systems: SystemList,
}

/// An obligation: it holds exactly where none of its systems has a solution in whole numbers.
#[derive(Drop)]
pub struct Obligation {
    pub name: ObName,
    /// Which variable of the policy each variable of the systems is.
    pub vars: VarList,
    /// One for each conjunctive case in which the obligation fails.
    pub systems: SystemList,
}

/// The obligations of a policy, in the order in which they are reported.
pub type Obligations = Items<Obligation>;
