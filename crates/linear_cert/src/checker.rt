//! The checker: whether a certificate is right.

ghost use Rattle.std.specs.Prelude.{◌≡◌, ◌↔◌, ◌<◌, IsTrue, All, SomeIff, pos, ◌+ℤ◌, ◌*ℤ◌, ◌<ℤ◌, FitsSigned};
ghost use Rattle.std.specs.Int.{w128};
ghost use Rattle.linear_form.specs.Solution.{HasNoSolution};
ghost use Rattle.linear_form.specs.System.{IsSystem};
ghost use Rattle.linear_cert.specs.Columns.{PartialSumsFit, column_sum, entry, times};
ghost use Rattle.linear_cert.specs.Right.{BoundIsNegative, CanBeCut, Cancels, IsRight, IsRightLeaf, NoTermIsLeft};
ghost use Rattle.linear_cert.specs.Right.{cert_tree, part_past, part_up_to};
ghost use Rattle.linear_cert.specs.Rows.{NamesRow};

use crate::cert::{Cert, Mult};
use crate::rows::{Column, entry};
use linear_form::{Bound, Row, System};
use sched_base::MAX_VARIABLES;

/// Whether the certificate is right. The rows that a leaf names exist, and times their multipliers
/// they add up, without a term, to `0 <= c` with c negative. Each partial sum, in the order of the
/// list, must be a signed number of 128 bits. A split cuts the range of a variable in two parts,
/// neither of them empty, and its certificates are right for them.
///
/// It takes no memory: each column of the rows is summed by itself, and the ranges that the splits
/// leave stand on the stack. It calls itself for the parts of a split, at any depth.
pub fn check(system: &System, cert: &Cert) -> bool
    ensures right { IsTrue result ↔ IsRight system.now.bounds system.now.rows (cert_tree cert.now) }
    ensures sound { IsTrue result → HasNoSolution system.now.bounds system.now.rows }
{
    let (bounds, rows) = (system.bounds(), system.rows());
    let mut room = [Bound { lo: 0, hi: 0 }; MAX_VARIABLES];
    let ranges = &mut room[..bounds.len()];
    ranges.copy_from_slice(bounds);
    check_under(ranges, rows, cert)
}

// The ranges are narrowed for a part of a split, and put back behind it.
fn check_under(bounds: &mut [Bound], rows: &[Row], cert: &Cert) -> bool
    requires { IsSystem (record { bounds = bounds.old; rows = rows.now }) }
    ensures right { IsTrue result ↔ IsRight bounds.old rows.now (cert_tree cert.now) }
    ensures put_back { bounds.new ≡ bounds.old }
{
    match cert {
        Cert::Leaf(mults) => is_right_leaf(bounds, rows, mults.as_slice()),
        Cert::Split {
            var,
            at,
            left,
            right,
        } => {
            let (variable, at) = (*var as usize, *at);
            if !can_be_cut(bounds, variable, at) {
                return false;
            }
            let range = bounds[variable];
            bounds[variable] = part_up_to(range, at);
            let left_is_right = check_under(bounds, rows, left);
            bounds[variable] = part_past(range, at);
            let right_is_right = check_under(bounds, rows, right);
            bounds[variable] = range;
            left_is_right && right_is_right
        }
    }
}

// Whether the variable exists and has values up to this one and values past it.
fn can_be_cut(bounds: &[Bound], variable: usize, at: i64) -> bool
    ensures { IsTrue result ↔ CanBeCut bounds.now variable at }
{
    variable < bounds.len() && bounds[variable].lo <= at && at < bounds[variable].hi
}

// The values up to this one.
fn part_up_to(range: Bound, at: i64) -> Bound
    ensures { result ≡ part_up_to range at }
{
    Bound { hi: at, ..range }
}

// The values past this one.
fn part_past(range: Bound, at: i64) -> Bound
    requires { at <ℤ range.hi }
    ensures { result ≡ part_past range at }
{
    Bound {
        lo: at + 1,
        ..range
    }
}

fn is_right_leaf(bounds: &[Bound], rows: &[Row], mults: &[Mult]) -> bool
    requires { IsSystem (record { bounds = bounds.now; rows = rows.now }) }
    ensures { IsTrue result ↔ IsRightLeaf bounds.now rows.now mults.now }
{
    names_rows(bounds, rows, mults)
        && no_term_is_left(bounds, rows, mults)
        && bound_is_negative(bounds, rows, mults)
}

fn names_rows(bounds: &[Bound], rows: &[Row], mults: &[Mult]) -> bool
    requires { IsSystem (record { bounds = bounds.now; rows = rows.now }) }
    ensures { IsTrue result ↔ All (NamesRow bounds.now rows.now) mults.now }
{
    let count = rows.len() + 2 * bounds.len();
    mults.iter().all(|mult| (mult.row as usize) < count)
}

fn no_term_is_left(bounds: &[Bound], rows: &[Row], mults: &[Mult]) -> bool
    requires system { IsSystem (record { bounds = bounds.now; rows = rows.now }) }
    requires named { All (NamesRow bounds.now rows.now) mults.now }
    ensures { IsTrue result ↔ NoTermIsLeft bounds.now rows.now mults.now }
{
    for variable in 0..bounds.len() as u32 {
        if !cancels(bounds, rows, mults, variable) {
            return false;
        }
    }
    true
}

fn cancels(bounds: &[Bound], rows: &[Row], mults: &[Mult], variable: u32) -> bool
    requires system { IsSystem (record { bounds = bounds.now; rows = rows.now }) }
    requires named { All (NamesRow bounds.now rows.now) mults.now }
    ensures { IsTrue result ↔ Cancels variable bounds.now rows.now mults.now }
{
    column_sum(bounds, rows, mults, Column::Variable(variable)) == Some(0)
}

fn bound_is_negative(bounds: &[Bound], rows: &[Row], mults: &[Mult]) -> bool
    requires system { IsSystem (record { bounds = bounds.now; rows = rows.now }) }
    requires named { All (NamesRow bounds.now rows.now) mults.now }
    ensures { IsTrue result ↔ BoundIsNegative bounds.now rows.now mults.now }
{
    column_sum(bounds, rows, mults, Column::RightSide).is_some_and(|sum| sum < 0)
}

// The sum in a column, `None` where some partial sum doesn't fit.
fn column_sum(bounds: &[Bound], rows: &[Row], mults: &[Mult], column: Column) -> Option<i128>
    requires system { IsSystem (record { bounds = bounds.now; rows = rows.now }) }
    requires named { All (NamesRow bounds.now rows.now) mults.now }
    ensures { let sum = column_sum column bounds.now rows.now mults.now in
        SomeIff result (PartialSumsFit column bounds.now rows.now mults.now) sum }
{
    let mut sum = 0;
    for mult in mults {
        sum = add_row(sum, bounds, rows, *mult, column)?;
    }
    Some(sum)
}

// The sum and one more row times its multiplier, `None` where that doesn't fit.
fn add_row(sum: i128, bounds: &[Bound], rows: &[Row], mult: Mult, column: Column) -> Option<i128>
    requires system { IsSystem (record { bounds = bounds.now; rows = rows.now }) }
    requires named { NamesRow bounds.now rows.now mult }
    ensures { let next = sum +ℤ times (entry column) bounds.now rows.now mult in
        SomeIff result (FitsSigned w128 next) next }
{
    sum.checked_add(product(entry(bounds, rows, mult.row, column), mult.by))
}

fn product(number: i64, by: u64) -> i128
    ensures { result ≡ number *ℤ pos by }
{
    i128::from(number) * i128::from(by)
}
