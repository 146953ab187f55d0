//! The order by which the compiled policy chooses.

ghost use Rattle.std.specs.Prelude.{◌≡◌, ◌+◌, ◌^◌, ◌<◌, ◌≤◌, ◌++◌, IfOk, length, map, vec_len};
ghost use Rattle.policy_tree.specs.Meaning.{order_tree};
ghost use Rattle.level_policy.specs.Compiled.{level_keys as keys_of_levels};
ghost use Rattle.level_policy.specs.Levels.{level_tree};

use crate::conditions::near;
use crate::typed::Level;
use lists::Items;
use policy_tree::{Key, Order, copy_of_order};
use std::alloc::{AllocError, Global};

/// The keys of the levels, and behind them those of the text.
pub(crate) fn choose(alloc: Global, levels: &[Level], text: &Order) -> Result<Order, AllocError>
    requires some { 1 ≤ length levels.now }
    requires few { length levels.now + length text.now < 2 ^ 32 }
    ensures { IfOk result (λ order. order_tree order ≡
        keys_of_levels (map level_tree levels.now) ++ order_tree text.now) }
{
    let mut keys = level_keys(alloc, levels)?;
    let mut further = copy_of_order(alloc, text)?.into_vec();
    keys.append(&mut further)?;
    Ok(Items::from_vec(keys))
}

/// For each level but the last a key that prefers the cores that it or an earlier one takes in.
fn level_keys(alloc: Global, levels: &[Level]) -> Result<Vec<Key>, AllocError>
    requires { 1 ≤ length levels.now }
    ensures keys { IfOk result (λ keys. order_tree keys.items ≡ keys_of_levels (map level_tree levels.now)) }
    ensures len { IfOk result (λ keys. vec_len keys + 1 ≡ length levels.now) }
{
    let mut keys = Vec::new(alloc);
    for count in 1..levels.len() {
        keys.push(Key::Prefer(near(alloc, &levels[..count])?))?;
    }
    Ok(keys)
}
