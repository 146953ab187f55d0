//! The policy `fair` as a whole.

ghost use Rattle.std.specs.Prelude.{◌≡◌, IfOk};
ghost use Rattle.policy_tree.specs.Meaning.{meaning_of};
ghost use Rattle.fair_policy.specs.Fair.{fair_meaning};

use crate::parts::{attributes, by_key, filter, handlers};
use policy_tree::variables::{OTHER_LOAD, THREAD_ATTRIBUTES, WEIGHT};
use policy_tree::{AttrList, Expr, Key, Load, Name, PlaceRule, Policy};
use std::alloc::{AllocError, Global};

/// The policy `fair`: weighted loads, the least used thread runs, and a tick sends it to the queue's end.
pub fn fair_policy(alloc: Global) -> Result<Policy, AllocError>
    ensures meaning { IfOk result (λ policy. meaning_of policy ≡ fair_meaning) }
{
    let name = Name::from_vec(Vec::from_slice(alloc, b"fair")?);
    let thread_attrs = attributes(alloc)?;
    let elect = by_key(alloc, Key::Least(Expr::Var(THREAD_ATTRIBUTES)))?;
    let handlers = handlers(alloc)?;
    let filter = filter(alloc)?;
    let choose = by_key(alloc, Key::Greatest(Expr::Var(OTHER_LOAD)))?;
    let steal = by_key(alloc, Key::Greatest(Expr::Var(WEIGHT)))?;
    Ok(Policy {
        name,
        load: Load::Weight { lo: 1, hi: 8 },
        core_attrs: AttrList::from_vec(Vec::new(alloc)),
        thread_attrs,
        place: PlaceRule::Least(Expr::Var(OTHER_LOAD)),
        elect,
        handlers,
        filter,
        choose,
        steal,
        batch: None,
    })
}
