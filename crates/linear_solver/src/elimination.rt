//! Elimination of the variables, one after another (Fourier and Motzkin).

ghost use Rattle.std.specs.Prelude.{◌≡◌, ◌<◌, ◌≤◌, ◌<ℤ◌, [], ◌∷◌, ◌++◌, pos, length, All, IfNone, IfOk, IfSome};
ghost use Rattle.std.specs.Prelude.{MatchOption};
ghost use Rattle.linear_form.specs.System.{IsSystem};
ghost use Rattle.linear_cert.specs.Right.{IsRightLeaf};
ghost use Rattle.linear_solver.specs.Elimination.{HasNoContradiction, IsUnrefuted, coef_of, lacks, next_list, sums_in};
ghost use Rattle.linear_solver.specs.Elimination.{sums_of, sums_of_pair, sums_with};
ghost use Rattle.linear_solver.specs.Shapes.{CanBeAdded, Extends, HasShape, IsList, LeafIn, RefutesAt};

use crate::derived::{Combined, Derived, MAX_DERIVED, Shape, coefficient, combine, has_no_term};
use crate::first::{first_list, shape_of};
use crate::leaf::leaf_of;
use linear_cert::{MultList, SolveMemory};
use linear_form::{Bound, Row};
use std::alloc::{AllocError, Global};

// The list without the variable, if it stays within the sizes.
fn next_list(
    alloc: Global,
    shape: Shape,
    variable: u32,
    list: Vec<Derived>,
) -> Result<Option<Vec<Derived>>, SolveMemory>
    requires known { variable < shape.variables }
    requires list { IsList shape list.items }
    ensures { IfOk result (Extends shape [] (next_list variable list.items)) }
{
    let mut sums = match sums_in(alloc, shape, variable, list.as_slice())? {
        Some(sums) => sums,
        None => return Ok(None),
    };
    let mut next = list;
    next.retain(|row| lacks(row, variable));
    if next.len() + sums.len() > MAX_DERIVED {
        return Ok(None);
    }
    next.append(&mut sums)?;
    Ok(Some(next))
}

/// Whether the variable has no part in the row.
pub fn lacks(row: &Derived, variable: u32) -> bool
    ensures { result ≡ lacks variable row.now }
{
    match row.coefs.as_slice().get(variable as usize) {
        Some(coef) => *coef == 0,
        None => true,
    }
}

fn sums_in(
    alloc: Global,
    shape: Shape,
    variable: u32,
    list: &[Derived],
) -> Result<Option<Vec<Derived>>, SolveMemory>
    requires known { variable < shape.variables }
    requires list { IsList shape list.now }
    ensures { IfOk result (Extends shape [] (sums_in variable list.now)) }
{
    let mut sums = Vec::new(alloc);
    for p in list {
        match with_sums_of(alloc, shape, variable, list, p, sums)? {
            Some(more) => sums = more,
            None => return Ok(None),
        }
    }
    Ok(Some(sums))
}

// The sums so far and those of one more row.
fn with_sums_of(
    alloc: Global,
    shape: Shape,
    variable: u32,
    list: &[Derived],
    p: &Derived,
    sums: Vec<Derived>,
) -> Result<Option<Vec<Derived>>, SolveMemory>
    requires known { variable < shape.variables }
    requires rows { CanBeAdded shape list.now p.now sums.items }
    ensures { IfOk result (Extends shape sums.items (sums_of variable list.now p.now)) }
{
    if coefficient(p, variable) > 0 {
        with_sums(alloc, shape, variable, list, p, sums)
    } else {
        Ok(Some(sums))
    }
}

fn with_sums(
    alloc: Global,
    shape: Shape,
    variable: u32,
    list: &[Derived],
    p: &Derived,
    sums: Vec<Derived>,
) -> Result<Option<Vec<Derived>>, SolveMemory>
    requires known { variable < shape.variables }
    requires rows { CanBeAdded shape list.now p.now sums.items }
    requires positive { pos 0 <ℤ coef_of variable p.now }
    ensures { IfOk result (Extends shape sums.items (sums_with variable list.now p.now)) }
{
    let mut sums = sums;
    for q in list {
        match with_sum(alloc, shape, variable, p, q, sums)? {
            Some(more) => sums = more,
            None => return Ok(None),
        }
    }
    Ok(Some(sums))
}

fn with_sum(
    alloc: Global,
    shape: Shape,
    variable: u32,
    p: &Derived,
    q: &Derived,
    sums: Vec<Derived>,
) -> Result<Option<Vec<Derived>>, SolveMemory>
    requires known { variable < shape.variables }
    requires p { HasShape shape p.now }
    requires q { HasShape shape q.now }
    requires positive { pos 0 <ℤ coef_of variable p.now }
    requires sums { IsList shape sums.items }
    ensures { IfOk result (Extends shape sums.items (sums_of_pair variable p.now q.now)) }
{
    if coefficient(q, variable) >= 0 {
        return Ok(Some(sums));
    }
    match combine(alloc, shape, variable, p, q)? {
        Combined::TooLarge => Ok(None),
        Combined::LeftOut => Ok(Some(sums)),
        Combined::Kept(sum) => with_row(sums, sum),
    }
}

fn with_row(sums: Vec<Derived>, sum: Derived) -> Result<Option<Vec<Derived>>, SolveMemory>
    ensures { IfOk result (λ r. MatchOption r (MAX_DERIVED ≤ length sums.items)
        (λ more. (length sums.items < MAX_DERIVED) × (more.items ≡ sums.items ++ sum ∷ []))) }
{
    if sums.len() >= MAX_DERIVED {
        return Ok(None);
    }
    let mut sums = sums;
    sums.push(sum)?;
    Ok(Some(sums))
}

// The multipliers of the list's first contradiction.
fn leaf_in(alloc: Global, shape: Shape, list: &[Derived]) -> Result<Option<MultList>, AllocError>
    requires { All (HasShape shape) list.now }
    ensures { IfOk result (λ leaf.
        MatchOption leaf (HasNoContradiction list.now) (LeafIn list.now)) }
{
    match contradiction(list) {
        Some(place) => Ok(Some(leaf_of(alloc, list[place].mults.as_slice())?)),
        None => Ok(None),
    }
}

// The first row of the list that says that 0 is at most a negative number.
fn contradiction(list: &[Derived]) -> Option<usize>
    ensures { MatchOption result (HasNoContradiction list.now) (RefutesAt list.now) }
{
    for (place, row) in list.iter().enumerate() {
        if row.bound < 0 && has_no_term(row.coefs.as_slice()) {
            return Some(place);
        }
    }
    None
}

/// The multipliers of a refutation, if elimination within its sizes finds one. It eliminates each variable
/// in turn, and looks at every list for a row that says that 0 is at most a negative number. That row's
/// multipliers are a leaf, as in Farkas' lemma.
pub fn eliminate(
    alloc: Global,
    bounds: &[Bound],
    rows: &[Row],
) -> Result<Option<MultList>, SolveMemory>
    requires { IsSystem (record { bounds = bounds.now; rows = rows.now }) }
    ensures right { IfOk result (λ leaf. IfSome leaf (IsRightLeaf bounds.now rows.now)) }
    ensures complete { IfOk result (λ leaf. IfNone leaf (IsUnrefuted bounds.now rows.now)) }
{
    let shape = shape_of(bounds, rows);
    let mut list = first_list(alloc, bounds, rows)?;
    for variable in 0..shape.variables {
        match leaf_in(alloc, shape, list.as_slice())? {
            Some(leaf) => return Ok(Some(leaf)),
            None => {}
        }
        match next_list(alloc, shape, variable, list)? {
            Some(next) => list = next,
            None => return Ok(None),
        }
    }
    Ok(leaf_in(alloc, shape, list.as_slice())?)
}
