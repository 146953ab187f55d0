//! A local search for a point of a system that the search over boxes left open. It starts in the middle of the
//! ranges, takes a row that doesn't hold, and changes the one value that lets the rows fail by the least,
//! each row weighed by how often it was taken. What it finds is tested; nothing is promised of how often.

ghost use Rattle.std.specs.Prelude.{◌≡◌, map, All, IfOk, IfSome, IsTrue, MatchOption};
ghost use Rattle.linear_form.specs.Solution.{IsWithin, Solves};
ghost use Rattle.linear_form.specs.System.{IsBound};
ghost use Rattle.linear_solver.specs.LocalSearch.{Holds, IsChange, IsFailing, middle};

use crate::rows_at::{Columns, State, columns_of, failure, states_of};
use linear_cert::SolveMemory;
use linear_form::{Bound, Point, Row, System};
use lists::Items;
use sched_base::MAX_VARIABLES;
use std::alloc::{AllocError, Global};

// The rows that it may look at.
const MAX_LOOKS: u64 = 1 << 19;

// The seed of chance, always the same.
const SEED: u64 = 0x9E37_79B9_7F4A_7C15;

/// A solution of the system, if the search comes to one.
pub fn local_point(alloc: Global, system: &System) -> Result<Option<Point>, SolveMemory>
    ensures { IfOk result (λ found. IfSome found (λ point.
        Solves system.now.bounds system.now.rows point.vals)) }
{
    let (bounds, rows) = (system.bounds(), system.rows());
    let mut values = middle(alloc, bounds)?;
    let mut states = states_of(alloc, rows, values.as_slice())?;
    let columns = columns_of(alloc, bounds, rows)?;
    let moves = Moves {
        bounds,
        rows,
        columns: columns.as_slice(),
    };
    if settles(moves, states.as_mut_slice(), values.as_mut_slice()) {
        Ok(solution_of(system, values))
    } else {
        Ok(None)
    }
}

// The point of these values, if it solves the system.
fn solution_of(system: &System, values: Vec<i64>) -> Option<Point>
    ensures { IfSome result (λ point. Solves system.now.bounds system.now.rows point.vals) }
{
    if values.len() > MAX_VARIABLES {
        return None;
    }
    let point = Point {
        vals: Items::from_vec(values),
    };
    if system.satisfies(&point) {
        Some(point)
    } else {
        None
    }
}

// The middle of each range.
fn middle(alloc: Global, bounds: &[Bound]) -> Result<Vec<i64>, AllocError>
    ensures { IfOk result (λ values. values.items ≡ map middle bounds.now) }
{
    let mut values = Vec::with_capacity(alloc, bounds.len())?;
    for range in bounds {
        values.push(range.lo.midpoint(range.hi))?;
    }
    Ok(values)
}

// What the search moves in: the system, row by row and column by column.
#[derive(Clone, Copy)]
struct Moves<'a> {
    bounds: &'a [Bound],
    rows: &'a [Row],
    columns: Columns<'a>,
}

// A value for a variable.
#[derive(Clone, Copy)]
struct Change {
    variable: usize,
    value: i64,
}

// Changes values until every row holds, or the effort is spent.
fn settles(moves: Moves, states: &mut [State], values: &mut [i64]) -> bool
    requires { All IsBound moves.bounds.now }
    ensures { IsTrue result → All Holds states.new }
{
    let mut chance = SEED;
    let mut looks: u64 = 0;
    for _step in 0..MAX_LOOKS {
        chance = next_chance(chance);
        match failing(states, chance) {
            None => return true,
            Some(number) if looks < MAX_LOOKS => {
                looks = looks.saturating_add(improve(moves, states, values, number, chance));
            }
            Some(_) => return false,
        }
    }
    false
}

// Makes the best change for a row, and weighs it more from now on. Gives the number of rows that it looked at.
fn improve(
    moves: Moves,
    states: &mut [State],
    values: &mut [i64],
    number: usize,
    chance: u64,
) -> u64
    requires { All IsBound moves.bounds.now }
{
    if number >= moves.rows.len() || number >= states.len() {
        return MAX_LOOKS;
    }
    let row = &moves.rows[number];
    let over = states[number].over;
    if let Some(change) = best_change(moves, states, values, row, over, chance) {
        make(change, moves.columns, states, values);
    }
    states[number].weight = states[number].weight.saturating_add(1);
    let terms = u64::from(row.terms.len()).saturating_add(1);
    (states.len() as u64).saturating_mul(terms)
}

fn make(change: Change, columns: Columns, states: &mut [State], values: &mut [i64]) {
    if change.variable >= values.len() || change.variable >= columns.len() {
        return;
    }
    let by = i128::from(change.value).saturating_sub(i128::from(values[change.variable]));
    values[change.variable] = change.value;
    let column = columns[change.variable].as_slice();
    for number in 0..states.len() {
        if number < column.len() {
            let more = i128::from(column[number]).saturating_mul(by);
            states[number].over = states[number].over.saturating_add(more);
        }
    }
}

// A row that doesn't hold, by chance one of the first or a later one. None where each holds.
fn failing(states: &[State], chance: u64) -> Option<usize>
    ensures { MatchOption result (All Holds states.now) (IsFailing states.now) }
{
    let mut found = None;
    let mut dice = chance;
    let mut count: u64 = 0;
    for (number, state) in states.iter().enumerate() {
        if state.over > 0 {
            dice = next_chance(dice);
            count = count.saturating_add(1);
            if (dice >> 33) % count.max(1) == 0 {
                found = Some(number);
            }
        }
    }
    found
}

// The change by which the row comes to hold, or nearly so, that lets the rows fail by the least.
fn best_change(
    moves: Moves,
    states: &[State],
    values: &[i64],
    row: &Row,
    over: i128,
    chance: u64,
) -> Option<Change>
    requires { All IsBound moves.bounds.now }
    ensures { IfSome result (IsChange moves.entry.bounds.now) }
{
    let mut best = None;
    let mut least = i128::MAX;
    let mut dice = chance;
    for term in row.terms.as_slice() {
        let variable = term.var as usize;
        if variable < moves.bounds.len()
            && variable < values.len()
            && variable < moves.columns.len()
        {
            let old = values[variable];
            let value = moved(moves.bounds[variable], old, term.coef, over);
            let by = i128::from(value).saturating_sub(i128::from(old));
            dice = next_chance(dice);
            let cost = shaken(
                failure(states, moves.columns[variable].as_slice(), by),
                dice,
            );
            if value != old && cost < least {
                least = cost;
                best = Some(Change { variable, value });
            }
        }
    }
    best
}

// The value that takes so much off a row, or the end of the range on that side.
fn moved(range: Bound, value: i64, coef: i64, over: i128) -> i64
    requires { IsBound range }
    ensures { IsWithin range result }
{
    let size = u128::from(coef.unsigned_abs()).max(1);
    let whole = over.unsigned_abs() / size;
    let rest = if over.unsigned_abs() % size == 0 {
        0
    } else {
        1
    };
    let steps = whole.saturating_add(rest).min(MAX_STEPS) as i64;
    let value = if coef > 0 {
        value.saturating_sub(steps)
    } else {
        value.saturating_add(steps)
    };
    value.clamp(range.lo, range.hi)
}

// More than any range has values.
const MAX_STEPS: u128 = 1 << 60;

// The number, by chance up to a tenth greater.
fn shaken(number: i128, chance: u64) -> i128 {
    let part = i128::from((chance >> 33) % 1024);
    number.saturating_add((number / 10_240).saturating_mul(part))
}

fn next_chance(chance: u64) -> u64 {
    chance
        .wrapping_mul(6_364_136_223_846_793_005)
        .wrapping_add(1_442_695_040_888_963_407)
}
