//! Lists of cases, joined and crossed.

ghost use Rattle.std.specs.Prelude.{◌≡◌, [], ◌∷◌, ◌++◌, IfOk, map, true};
ghost use Rattle.obligations.specs.Cases.{cases_of, crossed};
ghost use Rattle.policy_tree.specs.declared.typed.Load.{Load};
ghost use Rattle.policy_tree.specs.Trees.{always};

use crate::rows::Rows;
use std::alloc::{AllocError, Global};

/// The cases in which `always` has the outcome: one without rows, or none.
pub fn cases_of_always(alloc: Global, outcome: bool) -> Result<Vec<Rows>, AllocError>
    ensures { (load : Load) → IfOk result (λ all. all.items ≡ cases_of load outcome always) }
{
    let mut all = Vec::new(alloc);
    if outcome {
        all.push(Rows::new(alloc))?;
    }
    Ok(all)
}

/// The cases of the one list, and then those of the other.
pub fn joined(mut left: Vec<Rows>, right: Vec<Rows>) -> Result<Vec<Rows>, AllocError>
    ensures { IfOk result (λ all. all.items ≡ left.items ++ right.items) }
{
    for rows in right {
        left.push(rows)?;
    }
    Ok(left)
}

/// Each case of the left list with each of the right list. Beside one case without rows the other list stays as it is.
pub fn crossed(alloc: Global, left: Vec<Rows>, right: Vec<Rows>) -> Result<Vec<Rows>, AllocError>
    ensures { IfOk result (λ all. all.items ≡ crossed left.items right.items) }
{
    if is_unit(right.as_slice()) {
        return Ok(left);
    }
    if is_unit(left.as_slice()) {
        return Ok(right);
    }
    each_with_each(alloc, left, right.as_slice())
}

/// Whether there is one case alone, and it has no row.
fn is_unit(cases: &[Rows]) -> bool
    ensures { result ≡ true → cases.now ≡ [] ∷ [] }
{
    match cases {
        [only] => only.as_slice().is_empty(),
        _ => false,
    }
}

/// Each case of the left list with each of the right list. A left case is copied for each right case but the last.
fn each_with_each(alloc: Global, left: Vec<Rows>, right: &[Rows]) -> Result<Vec<Rows>, AllocError>
    ensures { IfOk result (λ all. all.items ≡ crossed left.items right.now) }
{
    let mut all = Vec::new(alloc);
    for rows in left {
        all = extended(alloc, all, rows, right)?;
    }
    Ok(all)
}

/// The cases, and behind them these rows with each case of the right list.
fn extended(
    alloc: Global,
    mut all: Vec<Rows>,
    rows: Rows,
    right: &[Rows],
) -> Result<Vec<Rows>, AllocError>
    ensures { IfOk result (λ more. more.items ≡ all.items ++ map (λ others. rows ++ others) right.now) }
{
    let Some((last, firsts)) = right.split_last() else {
        return Ok(all);
    };
    for others in firsts {
        all.push(rows.copy(alloc)?.followed_by(alloc, others)?)?;
    }
    all.push(rows.followed_by(alloc, last)?)?;
    Ok(all)
}
