//! Which condition and which order a syntax is.

ghost use Rattle.std.specs.Prelude.{◌≡◌, IfOk, IfErr, [], None, option_map};
ghost use Rattle.policy_tree.specs.Meaning.{key_tree, order_tree};
ghost use Rattle.policy_tree.specs.Trees.{cond_tree, expr_tree};
ghost use Rattle.policy_syntax.specs.SyntaxTrees.{condition_tree, condition_trees, key_syntax_tree, order_syntax_tree};
ghost use Rattle.policy_types.specs.Conditions.{chain_meaning, condition_faults, condition_meaning, directed, linked};
ghost use Rattle.policy_types.specs.Conditions.{key_faults, key_meaning, order_faults, order_meaning, parts_faults};
ghost use Rattle.policy_types.specs.Faults.{IsFirst};

use crate::fault::TypeFault;
use crate::scope::Scope;
use crate::sites::Site;
use lists::Items;
use policy_syntax::{ConditionSyntax, KeySyntax, OrderSyntax};
use policy_tree::{Cond, Expr, Key, Order};
use std::alloc::{AllocError, Global};

impl Scope<'_> {
    /// A condition. It goes along a chain by a loop, and calls itself for what stands within alone.
    #[cycle(conditions)]
    pub(crate) fn condition(
        &self,
        alloc: Global,
        site: Site,
        condition: &ConditionSyntax,
    ) -> Result<Cond, TypeFault>
        ensures tree { IfOk result (λ c.
            cond_tree c ≡ condition_meaning self.now (condition_tree condition.now)) }
        ensures sound { IfOk result (λ c.
            condition_faults self.now site (condition_tree condition.now) ≡ []) }
        ensures fault { IfErr result
            (IsFirst (condition_faults self.now site (condition_tree condition.now))) }
    {
        match condition {
            ConditionSyntax::Always { .. } => Ok(Cond::Always),
            ConditionSyntax::Not { inner, .. } => {
                let inner = self.condition(alloc, site, inner)?;
                Ok(Cond::Not(Box::new(alloc, inner)?))
            }
            ConditionSyntax::Group { inner, .. } => self.condition(alloc, site, inner),
            ConditionSyntax::And { parts, .. } => self.chain(alloc, site, true, parts.as_slice()),
            ConditionSyntax::Or { parts, .. } => self.chain(alloc, site, false, parts.as_slice()),
            ConditionSyntax::Test {
                compare,
                left,
                right,
                ..
            } => {
                let left = self.expr(alloc, site, left)?;
                let right = self.expr(alloc, site, right)?;
                Ok(Cond::Test(*compare, left, right))
            }
        }
    }

    /// The conjunction of the parts, or the disjunction.
    #[cycle(conditions)]
    fn chain(
        &self,
        alloc: Global,
        site: Site,
        both: bool,
        parts: &[ConditionSyntax],
    ) -> Result<Cond, TypeFault>
        ensures tree { IfOk result (λ c.
            cond_tree c ≡ chain_meaning self.now both None (condition_trees parts.now)) }
        ensures sound { IfOk result (λ c.
            parts_faults self.now site (condition_trees parts.now) ≡ []) }
        ensures fault { IfErr result
            (IsFirst (parts_faults self.now site (condition_trees parts.now))) }
    {
        let mut chain = None;
        for part in parts {
            let right = self.condition(alloc, site, part)?;
            chain = Some(linked(alloc, both, chain, right)?);
        }
        Ok(chain.unwrap_or(Cond::Always))
    }

    /// An order.
    pub(crate) fn order(
        &self,
        alloc: Global,
        site: Site,
        order: &OrderSyntax,
    ) -> Result<Order, TypeFault>
        ensures tree { IfOk result (λ o. order_tree o ≡ order_meaning self.now (order_syntax_tree order.now)) }
        ensures sound { IfOk result (λ o. order_faults self.now site (order_syntax_tree order.now) ≡ []) }
        ensures fault { IfErr result (IsFirst (order_faults self.now site (order_syntax_tree order.now))) }
    {
        let mut keys = Vec::new(alloc);
        let read = order.keys.as_slice();
        for key in read {
            keys.push(self.key(alloc, site, key)?)?;
        }
        Ok(Items::from_vec(keys))
    }

    /// A key.
    fn key(&self, alloc: Global, site: Site, key: &KeySyntax) -> Result<Key, TypeFault>
        ensures tree { IfOk result (λ k. key_tree k ≡ key_meaning self.now (key_syntax_tree key.now)) }
        ensures sound { IfOk result (λ k. key_faults self.now site (key_syntax_tree key.now) ≡ []) }
        ensures fault { IfErr result (IsFirst (key_faults self.now site (key_syntax_tree key.now))) }
    {
        match key {
            KeySyntax::Ranked {
                greatest,
                value,
                ..
            } => Ok(directed(*greatest, self.expr(alloc, site, value)?)),
            KeySyntax::Preferring { condition, .. } => {
                Ok(Key::Prefer(self.condition(alloc, site, condition)?))
            }
        }
    }
}

/// The key that puts the greater value first, or the lesser.
fn directed(greatest: bool, expr: Expr) -> Key
    ensures { key_tree result ≡ directed greatest (expr_tree expr) }
{
    if greatest {
        Key::Greatest(expr)
    } else {
        Key::Least(expr)
    }
}

/// The chain with one part more.
fn linked(alloc: Global, both: bool, chain: Option<Cond>, right: Cond) -> Result<Cond, AllocError>
    ensures { IfOk result (λ c.
        cond_tree c ≡ linked both (option_map cond_tree chain) (cond_tree right)) }
{
    let left = match chain {
        None => return Ok(right),
        Some(left) => Box::new(alloc, left)?,
    };
    let right = Box::new(alloc, right)?;
    if both {
        Ok(Cond::And(left, right))
    } else {
        Ok(Cond::Or(left, right))
    }
}
