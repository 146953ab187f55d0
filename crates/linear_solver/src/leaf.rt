//! Leaves of certificates.

ghost use Rattle.std.specs.Prelude.{◌≡◌, ◌^◌, ◌<◌, ◌≤◌, length, slice_index_or, All, IfOk};
ghost use Rattle.linear_form.specs.declared.form.Row.{Row};
ghost use Rattle.linear_form.specs.System.{IsRow, IsTerm};
ghost use Rattle.linear_solver.specs.Boxes.{closing, row_leaf};
ghost use Rattle.linear_solver.specs.Leaves.{multipliers_from};

use linear_cert::{Mult, MultList};
use linear_form::{Row, Term};
use sched_base::{MAX_ROWS, MAX_VARIABLES};
use lists::Items;
use std::alloc::{AllocError, Global};

/// The leaf of these multipliers of the numbered rows, without those that are 0.
pub fn leaf_of(alloc: Global, mults: &[i64]) -> Result<MultList, AllocError>
    requires { length mults.now < 2 ^ 32 }
    ensures { IfOk result (λ leaf. leaf ≡ multipliers_from 0 mults.now) }
{
    let mut leaf = Items::from_vec(Vec::new(alloc));
    for (number, mult) in mults.iter().enumerate() {
        if *mult != 0 {
            leaf.push(Mult {
                row: number as u32,
                by: mult.unsigned_abs(),
            })?;
        }
    }
    Ok(leaf)
}

/// The leaf of a row that holds nowhere in the box: the row itself, and for each of its variables the row
/// of the range that takes it out at the end where the row's left side is least.
pub fn row_leaf(alloc: Global, rows: &[Row], number: u32) -> Result<MultList, AllocError>
    requires few { length rows.now ≤ MAX_ROWS }
    requires known { number < length rows.now }
    requires rows { All (IsRow MAX_VARIABLES) rows.now }
    ensures { IfOk result (λ leaf. (d : Row) →
        leaf ≡ row_leaf (length rows.now) number (slice_index_or rows.now number d).terms) }
{
    let terms = rows[number as usize].terms.as_slice();
    let mut leaf = Items::from_vec(Vec::with_capacity(alloc, 1 + terms.len())?);
    leaf.push(Mult { row: number, by: 1 })?;
    for term in terms {
        leaf.push(closing(rows.len() as u32, *term))?;
    }
    Ok(leaf)
}

fn closing(rows: u32, term: Term) -> Mult
    requires few { rows ≤ MAX_ROWS }
    requires term { IsTerm MAX_VARIABLES term }
    ensures { result ≡ closing rows term }
{
    Mult {
        row: rows + 2 * term.var + if term.coef > 0 { 0 } else { 1 },
        by: term.coef.unsigned_abs(),
    }
}
