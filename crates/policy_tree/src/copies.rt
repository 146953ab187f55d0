//! Copies of trees, equal to what they are copies of in everything but the places where they lie.

ghost use Rattle.std.specs.Prelude.{◌≡◌, ◌<◌, ◌≤◌, All, IfOk, false};
ghost use Rattle.policy_tree.specs.Chains.{IsBelow, chained, is_link, linked, nodes_of};
ghost use Rattle.policy_tree.specs.Meaning.{key_tree, order_tree};
ghost use Rattle.policy_tree.specs.Trees.{cond_tree, expr_tree};

use crate::trees::{Cond, Expr};
use crate::typed::{Key, Order};
use lists::Items;
use std::alloc::{AllocError, Global};

/// A copy of an expression.
pub fn copy_of_expr(alloc: Global, expr: &Expr) -> Result<Expr, AllocError>
    ensures { IfOk result (λ copy. expr_tree copy ≡ expr_tree expr.now) }
{
    match expr {
        Expr::Num(value) => Ok(Expr::Num(*value)),
        Expr::Var(number) => Ok(Expr::Var(*number)),
        Expr::Neg(inner) => Ok(Expr::Neg(Box::new(alloc, copy_of_expr(alloc, inner)?)?)),
        Expr::Add(left, right) => {
            let left = copy_of_expr(alloc, left)?;
            let right = copy_of_expr(alloc, right)?;
            Ok(Expr::Add(Box::new(alloc, left)?, Box::new(alloc, right)?))
        }
        Expr::Sub(left, right) => {
            let left = copy_of_expr(alloc, left)?;
            let right = copy_of_expr(alloc, right)?;
            Ok(Expr::Sub(Box::new(alloc, left)?, Box::new(alloc, right)?))
        }
        Expr::Mul(left, right) => {
            let left = copy_of_expr(alloc, left)?;
            let right = copy_of_expr(alloc, right)?;
            Ok(Expr::Mul(Box::new(alloc, left)?, Box::new(alloc, right)?))
        }
    }
}

/// What a link of a chain adds on its right.
#[derive(Clone, Copy)]
enum Link<'a> {
    And(&'a Cond),
    Or(&'a Cond),
}

/// A copy of a condition. It goes along a chain by a loop, and calls itself for what stands to the right alone.
#[cycle(copies)]
pub fn copy_of_cond(alloc: Global, cond: &Cond) -> Result<Cond, AllocError>
    ensures { IfOk result (λ copy. cond_tree copy ≡ cond_tree cond.now) }
{
    let (end, mut links) = chain_of(alloc, cond)?;
    let mut copy = copy_of_end(alloc, end)?;
    while let Some(link) = links.pop() {
        copy = copy_of_link(alloc, copy, link)?;
    }
    Ok(copy)
}

/// The left end of the chain that the condition begins with, and the chain's links, the outermost first.
fn chain_of(alloc: Global, cond: &Cond) -> Result<(&Cond, Vec<Link<'_>>), AllocError>
    ensures chain { IfOk result (λ found. chained found.1.items (cond_tree found.0.now) ≡ cond_tree cond.now) }
    ensures end { IfOk result (λ found. is_link found.0.now ≡ false) }
    ensures end_nodes { IfOk result (λ found. nodes_of (cond_tree found.0.now) ≤ nodes_of (cond_tree cond.now)) }
    ensures links { IfOk result (λ found. All (IsBelow (nodes_of (cond_tree cond.now))) found.1.items) }
{
    let mut links = Vec::new(alloc);
    let mut end = cond;
    loop {
        match end {
            Cond::And(left, right) => {
                links.push(Link::And(right))?;
                end = left;
            }
            Cond::Or(left, right) => {
                links.push(Link::Or(right))?;
                end = left;
            }
            _ => return Ok((end, links)),
        }
    }
}

/// A copy of a condition that is no link of a chain.
#[cycle(copies)]
fn copy_of_end(alloc: Global, cond: &Cond) -> Result<Cond, AllocError>
    requires { is_link cond.now ≡ false }
    ensures { IfOk result (λ copy. cond_tree copy ≡ cond_tree cond.now) }
{
    match cond {
        Cond::Always => Ok(Cond::Always),
        Cond::Not(inner) => Ok(Cond::Not(Box::new(alloc, copy_of_cond(alloc, inner)?)?)),
        Cond::Test(cmp, left, right) => {
            let left = copy_of_expr(alloc, left)?;
            Ok(Cond::Test(*cmp, left, copy_of_expr(alloc, right)?))
        }
        _ => unreachable!(),
    }
}

/// The chain so far, and a copy of one more link.
#[cycle(copies)]
fn copy_of_link(alloc: Global, left: Cond, link: Link<'_>) -> Result<Cond, AllocError>
    ensures { IfOk result (λ copy. cond_tree copy ≡ linked link.entry (cond_tree left)) }
{
    match link {
        Link::And(right) => {
            let left = Box::new(alloc, left)?;
            Ok(Cond::And(left, Box::new(alloc, copy_of_cond(alloc, right)?)?))
        }
        Link::Or(right) => {
            let left = Box::new(alloc, left)?;
            Ok(Cond::Or(left, Box::new(alloc, copy_of_cond(alloc, right)?)?))
        }
    }
}

/// A copy of an order.
pub fn copy_of_order(alloc: Global, order: &Order) -> Result<Order, AllocError>
    ensures { IfOk result (λ copy. order_tree copy ≡ order_tree order.now) }
{
    let keys = order.as_slice();
    let mut copy = Vec::new(alloc);
    for key in keys {
        copy.push(copy_of_key(alloc, key)?)?;
    }
    Ok(Items::from_vec(copy))
}

/// A copy of a key.
fn copy_of_key(alloc: Global, key: &Key) -> Result<Key, AllocError>
    ensures { IfOk result (λ copy. key_tree copy ≡ key_tree key.now) }
{
    match key {
        Key::Least(expr) => Ok(Key::Least(copy_of_expr(alloc, expr)?)),
        Key::Greatest(expr) => Ok(Key::Greatest(copy_of_expr(alloc, expr)?)),
        Key::Prefer(cond) => Ok(Key::Prefer(copy_of_cond(alloc, cond)?)),
    }
}
