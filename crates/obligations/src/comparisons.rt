//! Comparisons of which an outcome is asked.

ghost use Rattle.std.specs.Prelude.{◌≡◌, ◌≤◌, [], ◌∷◌, IfOk, unsigned_abs};
ghost use Rattle.policy_tree.specs.Trees.{expr_tree, minus};
ghost use Rattle.policy_eval.specs.Forms.{IsLinear};
ghost use Rattle.policy_eval.specs.Resolved.{IsWeightRange};
ghost use Rattle.obligations.specs.CodeForms.{FitsRow, IsForm, form_seen};
ghost use Rattle.obligations.specs.Cases.{asked, below, cases_of_test, complement, not_above};
ghost use Rattle.obligations.specs.Forms.{LinearForm, at_most, form_of};
ghost use Rattle.obligations.specs.Counts.{count_of_test};

use crate::crossing::joined;
use crate::forms::{Form, form_of_difference};
use crate::rows::Rows;
use policy_tree::{Cmp, Expr, Load};
use std::alloc::{AllocError, Global};

/// The comparison of which the outcome is asked, as one that is to hold.
pub fn asked(outcome: bool, how: Cmp) -> Cmp
    ensures { result ≡ asked outcome how }
{
    if outcome { how } else { complement(how) }
}

/// The comparison that fails where this one holds.
fn complement(how: Cmp) -> Cmp
    ensures { result ≡ complement how }
{
    match how {
        Cmp::Eq => Cmp::Ne,
        Cmp::Ne => Cmp::Eq,
        Cmp::Lt => Cmp::Ge,
        Cmp::Le => Cmp::Gt,
        Cmp::Gt => Cmp::Le,
        Cmp::Ge => Cmp::Lt,
    }
}

/// The number of cases of a comparison.
pub fn count_of_test(how: Cmp) -> u32
    ensures { result ≡ count_of_test how }
{
    match how {
        Cmp::Ne => 2,
        Cmp::Eq | Cmp::Lt | Cmp::Le | Cmp::Gt | Cmp::Ge => 1,
    }
}

/// The cases in which the comparison holds.
pub fn cases_of_test(
    alloc: Global,
    load: Load,
    how: Cmp,
    left: &Expr,
    right: &Expr,
) -> Result<Vec<Rows>, AllocError>
    requires load { IsWeightRange load }
    requires left { IsLinear (expr_tree left.now) }
    requires right { IsLinear (expr_tree right.now) }
    ensures { IfOk result (λ cases. cases.items ≡
        cases_of_test how (form_of load (minus (expr_tree left.now) (expr_tree right.now)))) }
{
    let difference = form_of_difference(load, left, right);
    match how {
        Cmp::Le => one_row(alloc, &difference, 0),
        Cmp::Lt => one_row(alloc, &difference, -1),
        Cmp::Ge => one_row(alloc, &difference.opposite(), 0),
        Cmp::Gt => one_row(alloc, &difference.opposite(), -1),
        Cmp::Eq => two_rows(alloc, &difference, &difference.opposite()),
        Cmp::Ne => two_cases(alloc, &difference, &difference.opposite()),
    }
}

/// The case of one row: the form is at most that number.
fn one_row(alloc: Global, form: &Form, most: i64) -> Result<Vec<Rows>, AllocError>
    requires fits { FitsRow (form_seen form.now) }
    requires most { unsigned_abs most ≤ 1 }
    ensures { (d : LinearForm) → IsForm form.now d →
        IfOk result (λ cases. cases.items ≡ (at_most d most ∷ []) ∷ []) }
{
    let mut rows = Rows::new(alloc);
    rows.push(form.at_most(alloc, most)?)?;
    one_case(alloc, rows)
}

/// The case of two rows: neither form is above 0.
fn two_rows(alloc: Global, form: &Form, opposite: &Form) -> Result<Vec<Rows>, AllocError>
    requires fits { FitsRow (form_seen form.now) }
    requires opposite { FitsRow (form_seen opposite.now) }
    ensures { (d e : LinearForm) → IsForm form.now d → IsForm opposite.now e →
        IfOk result (λ cases. cases.items ≡ (not_above d ∷ not_above e ∷ []) ∷ []) }
{
    let mut rows = Rows::new(alloc);
    rows.push(form.at_most(alloc, 0)?)?;
    rows.push(opposite.at_most(alloc, 0)?)?;
    one_case(alloc, rows)
}

/// Two cases: one of the forms is below 0.
fn two_cases(alloc: Global, form: &Form, opposite: &Form) -> Result<Vec<Rows>, AllocError>
    requires fits { FitsRow (form_seen form.now) }
    requires opposite { FitsRow (form_seen opposite.now) }
    ensures { (d e : LinearForm) → IsForm form.now d → IsForm opposite.now e →
        IfOk result (λ cases. cases.items ≡ (below d ∷ []) ∷ (below e ∷ []) ∷ []) }
{
    joined(one_row(alloc, form, -1)?, one_row(alloc, opposite, -1)?)
}

/// That case alone.
fn one_case(alloc: Global, rows: Rows) -> Result<Vec<Rows>, AllocError>
    ensures { IfOk result (λ cases. cases.items ≡ rows ∷ []) }
{
    let mut cases = Vec::new(alloc);
    cases.push(rows)?;
    Ok(cases)
}
