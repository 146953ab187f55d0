//! A policy that balances by levels, as a tree.

use lists::Items;
use policy_tree::{Cond, Policy};

/// Levels, the nearest first.
pub type LevelList = Items<Level>;

/// A policy by levels. A core steals from the first level that has a candidate for it.
#[derive(Drop)]
pub struct Levels {
    /// What the policy says beside its levels. Its filter is `always`, and its `choose` orders the candidates of
    /// one level.
    pub plain: Policy,
    pub levels: LevelList,
}

/// Which cores are near enough, and from which of them may be stolen.
#[derive(Drop)]
pub struct Level {
    /// What holds of the acting core and of each core that the level takes in. A core belongs to the first level
    /// that takes it in.
    pub within: Cond,
    /// What must hold besides, so that the core may be stolen from.
    pub filter: Cond,
}
