//! The plain policy that chooses as levels say.

ghost use Rattle.std.specs.Prelude.{◌≡◌, ◌+◌, ◌^◌, ◌<◌, ◌≤◌, IfOk, length};
ghost use Rattle.policy_tree.specs.Meaning.{meaning_of};
ghost use Rattle.policy_eval.specs.Resolved.{IsResolved};
ghost use Rattle.level_policy.specs.Compiled.{compiled};
ghost use Rattle.level_policy.specs.Laws.{FiltersByLevel, IsShort};
ghost use Rattle.level_policy.specs.Levels.{levels_meaning};
ghost use Rattle.level_policy.specs.ResolvedLevels.{AreResolved};

use crate::conditions::filter;
use crate::copies::{copy_of_attrs, copy_of_batch, copy_of_name, copy_of_place};
use crate::handlers::copy_of_handlers;
use crate::keys::choose;
use crate::memory::LevelMemory;
use crate::typed::Levels;
use policy_tree::{Policy, copy_of_order};
use std::alloc::{AllocError, Global};

/// The plain policy of the levels. Every command and every law that serves a policy serves it.
///
/// It is refused only for want of memory. That it chooses as the levels say is `law_level_choice` of `level_laws`.
pub fn compile(alloc: Global, levels: &Levels) -> Result<Policy, LevelMemory>
    requires { AreResolved (levels_meaning levels.now) }
    ensures policy { IfOk result (λ p. meaning_of p ≡ compiled (levels_meaning levels.now)) }
    ensures filter { IfOk result (λ p. FiltersByLevel (levels_meaning levels.now) (meaning_of p)) }
    ensures resolved { IfOk result (λ p. IsResolved (meaning_of p)) }
    ensures short { IfOk result (λ p. IsShort (meaning_of p)) }
{
    let policy = compiled_policy(alloc, levels)?;
    Ok(policy)
}

/// The plain policy, part by part.
fn compiled_policy(alloc: Global, levels: &Levels) -> Result<Policy, AllocError>
    requires some { 1 ≤ length levels.now.levels }
    requires few { length levels.now.levels + length levels.now.plain.choose < 2 ^ 32 }
    ensures { IfOk result (λ p. meaning_of p ≡ compiled (levels_meaning levels.now)) }
{
    let plain = &levels.plain;
    let levels = levels.levels.as_slice();
    Ok(Policy {
        name: copy_of_name(alloc, &plain.name)?,
        load: plain.load,
        core_attrs: copy_of_attrs(alloc, &plain.core_attrs)?,
        thread_attrs: copy_of_attrs(alloc, &plain.thread_attrs)?,
        place: copy_of_place(alloc, &plain.place)?,
        elect: copy_of_order(alloc, &plain.elect)?,
        handlers: copy_of_handlers(alloc, &plain.handlers)?,
        filter: filter(alloc, levels)?,
        choose: choose(alloc, levels, &plain.choose)?,
        steal: copy_of_order(alloc, &plain.steal)?,
        batch: copy_of_batch(alloc, &plain.batch)?,
    })
}
