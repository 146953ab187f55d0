//! How the rows of a system stand at a point, and what a change of one value makes of that. The local search
//! alone stands on it.

ghost use Rattle.std.specs.Prelude.{◌≡◌, ◌^◌, ◌*◌, ◌≤◌, pos, length, map, unsigned_abs, All, IfOk};
ghost use Rattle.std.specs.List.{range_with_len};
ghost use Rattle.linear_form.specs.Solution.{left_side, term_value};
ghost use Rattle.linear_form.specs.System.{IsRow, IsSystem, IsTerm};
ghost use Rattle.linear_solver.specs.LocalSearch.{column_of, cost, excess, failure, first_state};

use linear_cert::{Column, SolveMemory, entry};
use linear_form::{Bound, Row, Term};
use lists::Items;
use sched_base::{MAX_ROW_COEFFICIENT, MAX_VARIABLES};
use std::alloc::{AllocError, Global};

/// How a row stands.
#[derive(Clone, Copy)]
pub struct State {
    /// By how much its left side is over its bound.
    pub over: i128,
    /// One more than how often it was taken.
    pub weight: u64,
}

/// For each variable its coefficient in each row.
pub type Columns<'a> = &'a [Items<i64>];

/// How each row stands at the point of these values.
pub fn states_of(alloc: Global, rows: &[Row], values: &[i64]) -> Result<Vec<State>, AllocError>
    requires few { length values.now ≤ MAX_VARIABLES }
    requires rows { All (IsRow (length values.now)) rows.now }
    ensures { IfOk result (λ states. states.items ≡ map (first_state values.now) rows.now) }
{
    let mut states = Vec::with_capacity(alloc, rows.len())?;
    for row in rows {
        states.push(State {
            over: excess(row, values),
            weight: 1,
        })?;
    }
    Ok(states)
}

fn excess(row: &Row, values: &[i64]) -> i128
    requires few { length values.now ≤ MAX_VARIABLES }
    requires row { IsRow (length values.now) row.now }
    ensures { result ≡ excess values.now row.now }
{
    left_side(row.terms.as_slice(), values) - i128::from(row.bound)
}

// At most `MAX_VARIABLES` values of terms add up within 128 bits.
fn left_side(terms: &[Term], values: &[i64]) -> i128
    requires few { length terms.now ≤ MAX_VARIABLES }
    requires terms { All (IsTerm (length values.now)) terms.now }
    ensures value { result ≡ left_side values.now terms.now }
    ensures small { unsigned_abs result ≤ 2 ^ 110 }
{
    let mut sum = 0;
    for term in terms {
        sum += term_value(*term, values);
    }
    sum
}

fn term_value(term: Term, values: &[i64]) -> i128
    requires { IsTerm (length values.now) term }
    ensures value { result ≡ term_value values.now term }
    ensures small { unsigned_abs result ≤ MAX_ROW_COEFFICIENT * 2 ^ 63 }
{
    i128::from(term.coef) * i128::from(values[term.var as usize])
}

/// The columns of all variables.
pub fn columns_of(
    alloc: Global,
    bounds: &[Bound],
    rows: &[Row],
) -> Result<Vec<Items<i64>>, SolveMemory>
    requires { IsSystem (record { bounds = bounds.now; rows = rows.now }) }
    ensures { IfOk result (λ columns.
        columns.items ≡ map (column_of rows.now) (range_with_len 0 (length bounds.now))) }
{
    let mut columns = Vec::with_capacity(alloc, bounds.len())?;
    for variable in 0..bounds.len() as u32 {
        columns.push(column_of(alloc, bounds, rows, variable)?)?;
    }
    Ok(columns)
}

fn column_of(
    alloc: Global,
    bounds: &[Bound],
    rows: &[Row],
    variable: u32,
) -> Result<Items<i64>, AllocError>
    requires { IsSystem (record { bounds = bounds.now; rows = rows.now }) }
    ensures { IfOk result (λ column. column ≡ column_of rows.now variable) }
{
    let mut column = Vec::with_capacity(alloc, rows.len())?;
    for number in 0..rows.len() as u32 {
        column.push(entry(bounds, rows, number, Column::Variable(variable)))?;
    }
    Ok(Items::from_vec(column))
}

/// By how much the rows fail, times their weights, once a variable with this column grows so much. Each number is
/// held within 128 bits.
pub fn failure(states: &[State], column: &[i64], by: i128) -> i128
    ensures { result ≡ failure by (pos 0) states.now column.now }
{
    let mut sum: i128 = 0;
    for (state, coef) in states.iter().zip(column.iter()) {
        sum = sum.saturating_add(cost(*state, i128::from(*coef).saturating_mul(by)));
    }
    sum
}

// By how much a row fails, times its weight, once its left side grows by so much.
fn cost(state: State, more: i128) -> i128
    ensures { result ≡ cost more state }
{
    let over = state.over.saturating_add(more).max(0);
    over.saturating_mul(i128::from(state.weight))
}
