//! The orders under which a queue is played.

ghost use Rattle.std.specs.Prelude.{◌≡◌, [], IfOk};
ghost use Rattle.policy_tree.specs.Meaning.{order_tree};
ghost use Rattle.policy_eval.specs.Evaluable.{IsEvaluableOrder};

use policy_tree::variables::{THREAD_ATTRIBUTES, WEIGHT};
use policy_tree::{Cmp, Cond, Expr, Key, Order};
use std::alloc::{AllocError, Global};

/// `t.used`, the first attribute of a thread.
const USED: u32 = THREAD_ATTRIBUTES;

/// `t.rank`, the second attribute of a thread.
const RANK: u32 = THREAD_ATTRIBUTES + 1;

/// `first`: the earliest comes first.
pub(crate) fn no_key(alloc: Global) -> Order
    ensures { order_tree result ≡ [] }
{
    Order::from_vec(Vec::new(alloc))
}

/// `min t.used`
pub(crate) fn least_used(alloc: Global) -> Result<Order, AllocError>
    ensures { IfOk result (λ order. IsEvaluableOrder (order_tree order)) }
{
    let keys = Vec::from_array(alloc, [Key::Least(Expr::Var(USED))])?;
    Ok(Order::from_vec(keys))
}

/// `max t.weight`
pub(crate) fn heaviest(alloc: Global) -> Result<Order, AllocError>
    ensures { IfOk result (λ order. IsEvaluableOrder (order_tree order)) }
{
    let keys = Vec::from_array(alloc, [Key::Greatest(Expr::Var(WEIGHT))])?;
    Ok(Order::from_vec(keys))
}

/// `prefer t.weight >= 3`
pub(crate) fn heavy_before_light(alloc: Global) -> Result<Order, AllocError>
    ensures { IfOk result (λ order. IsEvaluableOrder (order_tree order)) }
{
    let heavy = Cond::Test(Cmp::Ge, Expr::Var(WEIGHT), Expr::Num(3));
    let keys = Vec::from_array(alloc, [Key::Prefer(heavy)])?;
    Ok(Order::from_vec(keys))
}

/// `prefer t.weight >= 5, max t.used, min t.rank, max t.weight`
pub(crate) fn four_keys(alloc: Global) -> Result<Order, AllocError>
    ensures { IfOk result (λ order. IsEvaluableOrder (order_tree order)) }
{
    let keys = [
        Key::Prefer(Cond::Test(Cmp::Ge, Expr::Var(WEIGHT), Expr::Num(5))),
        Key::Greatest(Expr::Var(USED)),
        Key::Least(Expr::Var(RANK)),
        Key::Greatest(Expr::Var(WEIGHT)),
    ];
    Ok(Order::from_vec(Vec::from_array(alloc, keys)?))
}
