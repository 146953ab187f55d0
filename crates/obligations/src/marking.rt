//! Which variables occur in rows, and the place of each of them.

ghost use Rattle.std.specs.List.{AllByRecursion};
ghost use Rattle.obligations.specs.Marks.{HasSmallTerms, IsMarked, occurs_in_case, occurs_in_row};
ghost use Rattle.obligations.specs.Systems.{occurs};

use crate::rows::Rows;
use linear_form::Row;
use sched_base::MAX_VARIABLES;
use std::alloc::{AllocError, Global};

/// Marks the variables of the terms of all rows of the cases.
pub fn mark_cases(marks: &mut [bool; MAX_VARIABLES], cases: &[Rows])
    requires { AllByRecursion (AllByRecursion HasSmallTerms) cases.now }
    ensures { IsMarked marks.old marks.new (λ v. occurs v cases.now) }
{
    for rows in cases {
        mark_rows(marks, rows.as_slice());
    }
}

/// Marks the variables of the terms of the rows.
fn mark_rows(marks: &mut [bool; MAX_VARIABLES], rows: &[Row])
    requires { AllByRecursion HasSmallTerms rows.now }
    ensures { IsMarked marks.old marks.new (λ v. occurs_in_case v rows.now) }
{
    for row in rows {
        mark_row(marks, row);
    }
}

/// Marks the variables of the terms of the row.
fn mark_row(marks: &mut [bool; MAX_VARIABLES], row: &Row)
    requires { HasSmallTerms row.now }
    ensures { IsMarked marks.old marks.new (λ v. occurs_in_row v row.now) }
{
    for term in row.terms.as_slice() {
        marks[term.var as usize] = true;
    }
}
