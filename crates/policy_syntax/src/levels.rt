//! The syntax of a level text: a policy that has levels in place of a filter.

use crate::syntax::{
    AttrSyntax, BatchSyntax, ConditionSyntax, ElectSyntax, HandlerSyntax, LoadSyntax, OrderSyntax,
    PlaceSyntax,
};
use lists::Items;
use policy_tree::Name;

/// A whole level text. Parts that may be left out and are have `None`, or an empty list.
#[derive(Drop)]
pub struct LevelSyntax {
    pub name: Name,
    pub load: LoadSyntax,
    pub attrs: Items<AttrSyntax>,
    pub place: Option<PlaceSyntax>,
    pub elect: Option<ElectSyntax>,
    pub handlers: Items<HandlerSyntax>,
    /// Its levels, the nearest first. No text has none.
    pub levels: Items<OneLevelSyntax>,
    pub choose_at: u32,
    pub choose: OrderSyntax,
    pub steal_at: u32,
    pub steal: OrderSyntax,
    pub batch: Option<BatchSyntax>,
}

/// `level within`, a condition, `filter` and a condition.
#[derive(Drop)]
pub struct OneLevelSyntax {
    pub at: u32,
    /// Of which cores the level is. It is `always` or one comparison.
    pub within: ConditionSyntax,
    pub filter_at: u32,
    pub filter: ConditionSyntax,
}
