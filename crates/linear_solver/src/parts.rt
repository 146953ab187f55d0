//! Boxes that are cut in two.

ghost use Rattle.std.specs.Prelude.{◌≡◌, ◌↔◌, ◌≤◌, ◌/◌, ◌≤ℤ◌, ◌<ℤ◌, List, All, IfOk, IfSome, IsTrue};
ghost use Rattle.linear_form.specs.declared.form.Bound.{Bound};
ghost use Rattle.linear_form.specs.declared.form.Row.{Row};
ghost use Rattle.linear_form.specs.System.{IsBound, IsSystem};
ghost use Rattle.linear_cert.specs.Right.{CanBeCut, part_past, part_up_to, past, up_to};
ghost use Rattle.linear_solver.specs.Boxes.{IsWide, width};
ghost use Rattle.linear_solver.specs.Steps.{IsNarrowed, IsPart, IsPartition};

use crate::choice::Cut;
use crate::ends::is_refuted;
use crate::leaf::row_leaf;
use linear_cert::MultList;
use linear_form::{Bound, Row};
use std::alloc::{AllocError, Global};

/// One part of a box that is cut.
#[derive(Drop)]
pub enum Part {
    /// A leaf why no solution lies in it.
    Closed(MultList),
    /// The ranges of a part that is searched.
    Open(Vec<Bound>),
}

/// A box that is cut in two.
#[derive(Drop)]
pub struct Partition {
    /// The variable whose range is cut.
    pub variable: u32,
    /// The last value of the lower part.
    pub at: i64,
    /// The lower part.
    pub low: Part,
    /// The upper part.
    pub high: Part,
}

/// The box cut in the middle of a range.
pub fn halved(alloc: Global, bounds: &[Bound], variable: u32) -> Result<Partition, AllocError>
    requires bounds { All IsBound bounds.now }
    requires wide { IsWide bounds.now variable }
    ensures { IfOk result (λ cut. (rows : List Row) → IsPartition bounds.now rows cut) }
{
    let at = middle(bounds[variable as usize]);
    Ok(Partition {
        variable,
        at,
        low: Part::Open(low_part(alloc, bounds, variable, at)?),
        high: Part::Open(high_part(alloc, bounds, variable, at)?),
    })
}

// The last value of a range's lower half.
fn middle(range: Bound) -> i64
    requires bound { IsBound range }
    requires wide { range.lo <ℤ range.hi }
    ensures from { range.lo ≤ℤ result }
    ensures below { result <ℤ range.hi }
    ensures low { width (part_up_to range result) ≤ width range / 2 }
    ensures high { width (part_past range result) ≤ width range / 2 }
{
    range.lo + (range.hi - range.lo) / 2
}

/// The box cut so that a row closes one part, if it does so, and the other part has at most half of the
/// range.
pub fn cut_off(
    alloc: Global,
    bounds: &[Bound],
    rows: &[Row],
    cut: Cut,
) -> Result<Option<Partition>, AllocError>
    requires { IsSystem (record { bounds = bounds.now; rows = rows.now }) }
    ensures { IfOk result (λ cut. IfSome cut (IsPartition bounds.now rows.now)) }
{
    if !can_be_cut(bounds, cut.variable, cut.at) {
        return Ok(None);
    }
    if cut.closes_low {
        let part = low_part(alloc, bounds, cut.variable, cut.at)?;
        let low = closed(alloc, rows, cut.row, part.as_slice())?;
        let high = turned_high(bounds, cut.variable, cut.at, part);
        Ok(of_both(cut, low, smaller(bounds, cut.variable, high)))
    } else {
        let part = high_part(alloc, bounds, cut.variable, cut.at)?;
        let high = closed(alloc, rows, cut.row, part.as_slice())?;
        let low = turned_low(bounds, cut.variable, cut.at, part);
        Ok(of_both(cut, smaller(bounds, cut.variable, low), high))
    }
}

fn of_both(cut: Cut, low: Option<Part>, high: Option<Part>) -> Option<Partition>
    ensures { (bounds : List Bound) (rows : List Row) → CanBeCut bounds cut.variable cut.at
        → IfSome low (IsPart bounds rows (up_to bounds cut.variable cut.at))
        → IfSome high (IsPart bounds rows (past bounds cut.variable cut.at))
        → IfSome result (IsPartition bounds rows) }
{
    match (low, high) {
        (Some(low), Some(high)) => Some(Partition {
            variable: cut.variable,
            at: cut.at,
            low,
            high,
        }),
        _ => None,
    }
}

// Whether the variable exists and has values up to this one and values past it.
fn can_be_cut(bounds: &[Bound], variable: u32, at: i64) -> bool
    ensures { IsTrue result ↔ CanBeCut bounds.now variable at }
{
    let variable = variable as usize;
    variable < bounds.len() && bounds[variable].lo <= at && at < bounds[variable].hi
}

fn low_part(
    alloc: Global,
    bounds: &[Bound],
    variable: u32,
    at: i64,
) -> Result<Vec<Bound>, AllocError>
    requires { CanBeCut bounds.now variable at }
    ensures { IfOk result (λ part. part.items ≡ up_to bounds.now variable at) }
{
    let mut part = bounds.to_vec(alloc)?;
    part[variable as usize] = part_up_to(bounds[variable as usize], at);
    Ok(part)
}

fn high_part(
    alloc: Global,
    bounds: &[Bound],
    variable: u32,
    at: i64,
) -> Result<Vec<Bound>, AllocError>
    requires { CanBeCut bounds.now variable at }
    ensures { IfOk result (λ part. part.items ≡ past bounds.now variable at) }
{
    let mut part = bounds.to_vec(alloc)?;
    part[variable as usize] = part_past(bounds[variable as usize], at);
    Ok(part)
}

// The values of a range up to this one.
fn part_up_to(range: Bound, at: i64) -> Bound
    ensures { result ≡ part_up_to range at }
{
    Bound { hi: at, ..range }
}

// The values of a range past this one.
fn part_past(range: Bound, at: i64) -> Bound
    requires { at <ℤ range.hi }
    ensures { result ≡ part_past range at }
{
    Bound {
        lo: at + 1,
        ..range
    }
}

// The lower part, made of the upper one.
fn turned_low(bounds: &[Bound], variable: u32, at: i64, part: Vec<Bound>) -> Vec<Bound>
    requires cut { CanBeCut bounds.now variable at }
    requires part { part.items ≡ past bounds.now variable at }
    ensures { result.items ≡ up_to bounds.now variable at }
{
    let mut part = part;
    part[variable as usize] = part_up_to(bounds[variable as usize], at);
    part
}

// The upper part, made of the lower one.
fn turned_high(bounds: &[Bound], variable: u32, at: i64, part: Vec<Bound>) -> Vec<Bound>
    requires cut { CanBeCut bounds.now variable at }
    requires part { part.items ≡ up_to bounds.now variable at }
    ensures { result.items ≡ past bounds.now variable at }
{
    let mut part = part;
    part[variable as usize] = part_past(bounds[variable as usize], at);
    part
}

// The part, if the row holds nowhere in it.
fn closed(alloc: Global, rows: &[Row], row: u32, part: &[Bound]) -> Result<Option<Part>, AllocError>
    requires { IsSystem (record { bounds = part.now; rows = rows.now }) }
    ensures { IfOk result (λ r. (whole : List Bound) →
        IfSome r (IsPart whole rows.now part.now)) }
{
    let number = row as usize;
    if number < rows.len() && is_refuted(part, &rows[number]) {
        return Ok(Some(Part::Closed(row_leaf(alloc, rows, row)?)));
    }
    Ok(None)
}

// The part, if it has at most half of the variable's range.
fn smaller(bounds: &[Bound], variable: u32, part: Vec<Bound>) -> Option<Part>
    requires { IsNarrowed bounds.now variable part.items }
    ensures { (rows : List Row) → IfSome result (IsPart bounds.now rows part.items) }
{
    let whole = bounds[variable as usize];
    let range = part.as_slice()[variable as usize];
    if whole.lo < whole.hi && width(range) <= width(whole) / 2 {
        Some(Part::Open(part))
    } else {
        None
    }
}

// How far apart the ends of a range are.
fn width(range: Bound) -> u64
    ensures { result ≡ width range }
{
    range.hi.abs_diff(range.lo)
}
