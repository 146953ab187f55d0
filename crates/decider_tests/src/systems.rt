//! Systems, built of their ranges and rows. `spelling` says how a table spells them.

ghost use Rattle.std.specs.Prelude.{◌≡◌, ◌≤◌, vec_len, IfOk, IfSome, All};
ghost use Rattle.linear_form.specs.System.{IsBound, IsRow, IsTerm};

use crate::spelling::{Misspelt, ranges_in, row_parts, terms_in};
use linear_form::{AtomFault, Bound, Row, System, Term};
use lists::Items;
use sched_base::{MAX_END, MAX_ROW_BOUND, MAX_ROW_COEFFICIENT, MAX_VARIABLES};
use std::alloc::{AllocError, Global};

/// The system that is spelled so.
pub(crate) fn system_of(alloc: Global, spelling: &str) -> Result<System, Misspelt> {
    let (ranges, rows) = spelling.split_once("; ").unwrap_or((spelling, ""));
    let ranges = ranges_in(alloc, ranges)?;
    let ranges = ranges_of(alloc, ranges.as_slice())?.ok_or(Misspelt::Form)?;
    let mut system = System::new(alloc, ranges);
    for row in rows.split("; ").filter(|row| !row.is_empty()) {
        add_row(alloc, &mut system, row)?;
    }
    Ok(system)
}

/// Adds the row that is spelled so.
fn add_row(alloc: Global, system: &mut System, spelling: &str) -> Result<(), Misspelt> {
    let (terms, bound) = row_parts(spelling)?;
    let terms = terms_in(alloc, terms)?;
    let row = row_of(alloc, system.variable_count(), terms.as_slice(), bound)?;
    match system.add_atom(row.ok_or(Misspelt::Form)?) {
        Ok(()) => Ok(()),
        Err(AtomFault::Full) => Err(Misspelt::Full),
        Err(AtomFault::Memory) => Err(Misspelt::Memory),
    }
}

/// A term of one of the variables from `least` on, `None` where no row has it.
fn term_of(variables: u32, least: u32, var: u32, coef: i64) -> Option<Term>
    ensures fits { IfSome result (IsTerm variables) }
    ensures place { IfSome result (λ term. (least ≤ term.var) × (term.var ≡ var)) }
{
    if var < least || var >= variables || coef == 0 || coef.unsigned_abs() > MAX_ROW_COEFFICIENT {
        return None;
    }
    Some(Term { var, coef })
}

/// The row of these terms, `None` where no system of so many variables has it.
fn row_of(
    alloc: Global,
    variables: u32,
    terms: &[(u32, i64)],
    bound: i64,
) -> Result<Option<Row>, AllocError>
    ensures { IfOk result (λ found. IfSome found (IsRow variables)) }
{
    if terms.len() > MAX_VARIABLES || bound.unsigned_abs() > MAX_ROW_BOUND {
        return Ok(None);
    }
    let mut list = Vec::new(alloc);
    let mut least = 0;
    for (var, coef) in terms {
        let Some(term) = term_of(variables, least, *var, *coef) else {
            return Ok(None);
        };
        list.push(term)?;
        least = term.var + 1;
    }
    Ok(Some(Row {
        terms: Items::from_vec(list),
        bound,
    }))
}

/// A range, `None` where no variable has it.
fn range_of(lo: i64, hi: i64) -> Option<Bound>
    ensures { IfSome result IsBound }
{
    if lo > hi || lo.unsigned_abs() > MAX_END || hi.unsigned_abs() > MAX_END {
        return None;
    }
    Some(Bound { lo, hi })
}

/// These ranges, `None` where no system has them.
fn ranges_of(alloc: Global, ranges: &[(i64, i64)]) -> Result<Option<Vec<Bound>>, AllocError>
    ensures few { IfOk result (λ found. IfSome found (λ list. vec_len list ≤ MAX_VARIABLES)) }
    ensures fit { IfOk result (λ found. IfSome found (λ list. All IsBound list.items)) }
{
    if ranges.len() > MAX_VARIABLES {
        return Ok(None);
    }
    let mut list = Vec::new(alloc);
    for (lo, hi) in ranges {
        let Some(range) = range_of(*lo, *hi) else {
            return Ok(None);
        };
        list.push(range)?;
    }
    Ok(Some(list))
}
