//! Elimination that keeps to what a box leaves open: a sum that holds nowhere in the box closes it at once,
//! and one that holds everywhere is left out. So its lists stay short. Nothing is promised of it but that a
//! leaf is right.

ghost use Rattle.std.specs.Prelude.{◌<◌, List, length, All, IfOk};
ghost use Rattle.linear_form.specs.declared.form.Bound.{Bound};
ghost use Rattle.linear_form.specs.declared.form.Row.{Row};
ghost use Rattle.linear_form.specs.System.{IsSystem};
ghost use Rattle.linear_solver.specs.Elimination.{numbered_count};
ghost use Rattle.linear_solver.specs.Follows.{IsSumRow};
ghost use Rattle.linear_solver.specs.Probes.{IsReduced, IsReduction};

use crate::derived::Derived;
use crate::elimination::lacks;
use crate::ends::is_implied;
use crate::first::{first_row, shape_of};
use crate::open_sums::{MAX_PROBED, Stage, Sums, open_sums};
use linear_cert::{MultList, SolveMemory};
use linear_form::{Bound, Row};
use std::alloc::Global;

/// What elimination over a box finds.
#[derive(Drop)]
pub enum Reduced {
    /// A leaf why no solution lies in the box.
    Leaf(MultList),
    /// For each variable the rows with it, without the variables before it.
    Lists(Vec<Vec<Derived>>),
    /// Nothing: a size or the effort was passed.
    Passed,
}

/// What one variable's elimination finds.
#[derive(Drop)]
pub enum Reduction {
    /// A leaf why no solution lies in the box.
    Closed(MultList),
    /// The rows with the variable, and the list without it.
    Rows {
        /// Those with it.
        with: Vec<Derived>,
        /// The list without it.
        next: Vec<Derived>,
    },
    /// Nothing.
    Stuck,
}

/// Eliminates the variables one after another. `effort` is the number of sums that may be made.
pub fn reduce(
    alloc: Global,
    bounds: &[Bound],
    rows: &[Row],
    effort: &mut u32,
) -> Result<Reduced, SolveMemory>
    requires { IsSystem (record { bounds = bounds.now; rows = rows.now }) }
    ensures { IfOk result (IsReduced bounds.now rows.now) }
{
    let mut list = open_rows(alloc, bounds, rows)?;
    let mut lists = Vec::new(alloc);
    for variable in 0..bounds.len() as u32 {
        let stage = Stage {
            bounds,
            rows,
            variable,
        };
        match without(alloc, &stage, list, effort)? {
            Reduction::Closed(leaf) => return Ok(Reduced::Leaf(leaf)),
            Reduction::Stuck => return Ok(Reduced::Passed),
            Reduction::Rows { with, next } => {
                lists.push(with)?;
                list = next;
            }
        }
    }
    Ok(Reduced::Lists(lists))
}

// The numbered rows, without those of the system that hold all over the box.
fn open_rows(alloc: Global, bounds: &[Bound], rows: &[Row]) -> Result<Vec<Derived>, SolveMemory>
    requires { IsSystem (record { bounds = bounds.now; rows = rows.now }) }
    ensures { IfOk result (λ list. All (IsSumRow bounds.now rows.now) list.items) }
{
    let shape = shape_of(bounds, rows);
    let mut list = Vec::new(alloc);
    for number in 0..shape.numbered {
        list = with_open_row(alloc, bounds, rows, number, list)?;
    }
    Ok(list)
}

fn with_open_row(
    alloc: Global,
    bounds: &[Bound],
    rows: &[Row],
    number: u32,
    list: Vec<Derived>,
) -> Result<Vec<Derived>, SolveMemory>
    requires system { IsSystem (record { bounds = bounds.now; rows = rows.now }) }
    requires numbered { number < numbered_count bounds.now rows.now }
    requires list { All (IsSumRow bounds.now rows.now) list.items }
    ensures { IfOk result (λ list. All (IsSumRow bounds.now rows.now) list.items) }
{
    let place = number as usize;
    if place < rows.len() && is_implied(bounds, &rows[place]) {
        return Ok(list);
    }
    let mut list = list;
    list.push(first_row(alloc, shape_of(bounds, rows), bounds, rows, number)?)?;
    Ok(list)
}

// The list without a variable, and the rows that have it.
fn without(
    alloc: Global,
    stage: &Stage,
    list: Vec<Derived>,
    effort: &mut u32,
) -> Result<Reduction, SolveMemory>
    requires system { IsSystem (record { bounds = stage.now.bounds.now; rows = stage.now.rows.now }) }
    requires known { stage.now.variable < length stage.now.bounds.now }
    requires list { All (IsSumRow stage.now.bounds.now stage.now.rows.now) list.items }
    ensures { IfOk result (IsReduction stage.now.bounds.now stage.now.rows.now) }
{
    match open_sums(alloc, stage, list.as_slice(), effort)? {
        Sums::Shut(leaf) => Ok(Reduction::Closed(leaf)),
        Sums::Full => Ok(Reduction::Stuck),
        Sums::More(sums) => parted(alloc, stage.variable, list, sums),
    }
}

// The rows by whether they have the variable. Those without it stand behind the sums.
fn parted(
    alloc: Global,
    variable: u32,
    list: Vec<Derived>,
    sums: Vec<Derived>,
) -> Result<Reduction, SolveMemory>
    ensures { (bounds : List Bound) (rows : List Row) → All (IsSumRow bounds rows) list.items
        → All (IsSumRow bounds rows) sums.items → IfOk result (IsReduction bounds rows) }
{
    let mut list = list;
    let mut next = sums;
    let mut with = Vec::new(alloc);
    while let Some(row) = list.pop() {
        if lacks(&row, variable) {
            next.push(row)?;
        } else {
            with.push(row)?;
        }
    }
    if next.len() > MAX_PROBED {
        return Ok(Reduction::Stuck);
    }
    Ok(Reduction::Rows { with, next })
}
