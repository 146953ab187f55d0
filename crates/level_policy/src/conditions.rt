//! The filter that levels are compiled to, and the conditions in it.

ghost use Rattle.std.specs.Prelude.{◌≡◌, ◌≤◌, IfOk, length, map};
ghost use Rattle.policy_tree.specs.Trees.{both as both_tree, cond_tree, either as either_tree};
ghost use Rattle.level_policy.specs.Compiled.{belonging as belonging_to, compiled_filter};
ghost use Rattle.level_policy.specs.Compiled.{narrowed as narrowed_tree, near as near_of};
ghost use Rattle.level_policy.specs.Levels.{level_tree};

use crate::typed::Level;
use policy_tree::{Cond, copy_of_cond};
use std::alloc::{AllocError, Global};

/// From whom may be stolen: for some level, the core belongs to it and passes its filter.
pub(crate) fn filter(alloc: Global, levels: &[Level]) -> Result<Cond, AllocError>
    requires { 1 ≤ length levels.now }
    ensures { IfOk result (λ filter. cond_tree filter ≡ compiled_filter (map level_tree levels.now)) }
{
    let mut filter = level_filter(alloc, &levels[..0], &levels[0])?;
    for at in 1..levels.len() {
        let further = level_filter(alloc, &levels[..at], &levels[at])?;
        filter = either(alloc, filter, further)?;
    }
    Ok(filter)
}

/// The core belongs to the level behind those, and passes its filter.
fn level_filter(alloc: Global, earlier: &[Level], level: &Level) -> Result<Cond, AllocError>
    ensures { IfOk result (λ filter. cond_tree filter ≡ both_tree
        (belonging_to (map level_tree earlier.now) (level_tree level.now))
        (cond_tree level.now.filter)) }
{
    let belongs = belonging(alloc, earlier, level)?;
    let filter = copy_of_cond(alloc, &level.filter)?;
    both(alloc, belongs, filter)
}

/// The core belongs to the level behind those: none of them takes it in, and the level does.
fn belonging(alloc: Global, earlier: &[Level], level: &Level) -> Result<Cond, AllocError>
    ensures { IfOk result (λ belongs.
        cond_tree belongs ≡ belonging_to (map level_tree earlier.now) (level_tree level.now)) }
{
    if earlier.is_empty() {
        return copy_of_cond(alloc, &level.within);
    }
    let nearer = near(alloc, earlier)?;
    let beyond = Cond::Not(Box::new(alloc, nearer)?);
    narrowed(alloc, beyond, &level.within)
}

/// Both of the two hold. That `always` holds too isn't said.
fn narrowed(alloc: Global, beyond: Cond, within: &Cond) -> Result<Cond, AllocError>
    ensures { IfOk result (λ joined.
        cond_tree joined ≡ narrowed_tree (cond_tree beyond) (cond_tree within.now)) }
{
    match within {
        Cond::Always => Ok(beyond),
        _ => both(alloc, beyond, copy_of_cond(alloc, within)?),
    }
}

/// One of the levels takes the core in.
pub(crate) fn near(alloc: Global, levels: &[Level]) -> Result<Cond, AllocError>
    requires { 1 ≤ length levels.now }
    ensures { IfOk result (λ near. cond_tree near ≡ near_of (map level_tree levels.now)) }
{
    let mut near = copy_of_cond(alloc, &levels[0].within)?;
    for next in 1..levels.len() {
        let within = copy_of_cond(alloc, &levels[next].within)?;
        near = either(alloc, near, within)?;
    }
    Ok(near)
}

/// Both of the two hold.
fn both(alloc: Global, left: Cond, right: Cond) -> Result<Cond, AllocError>
    ensures { IfOk result (λ joined. cond_tree joined ≡ both_tree (cond_tree left) (cond_tree right)) }
{
    let left = Box::new(alloc, left)?;
    Ok(Cond::And(left, Box::new(alloc, right)?))
}

/// One of the two holds.
fn either(alloc: Global, left: Cond, right: Cond) -> Result<Cond, AllocError>
    ensures { IfOk result (λ joined. cond_tree joined ≡ either_tree (cond_tree left) (cond_tree right)) }
{
    let left = Box::new(alloc, left)?;
    Ok(Cond::Or(left, Box::new(alloc, right)?))
}
