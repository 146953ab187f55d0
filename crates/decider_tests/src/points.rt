//! How many rows a system has, and whether a point is a solution of one. `VALUE VALUE ..; SYSTEM` spells the two.

use crate::spelling::{Misspelt, number, parts, unnamed};
use crate::systems::system_of;
use linear_form::Point;
use lists::Items;
use sched_base::MAX_VARIABLES;
use std::alloc::{AllocError, Global};

/// How many rows the system has.
pub(crate) fn row_count(alloc: Global, text: &str) -> Result<String, AllocError> {
    match system_of(alloc, unnamed(text)) {
        Ok(system) => format!(in alloc; "{} rows", system.row_count()),
        Err(fault) => fault.answer(alloc),
    }
}

/// Whether the point is a solution of the system.
pub(crate) fn point_answer(alloc: Global, text: &str) -> Result<String, AllocError> {
    match is_solution(alloc, text) {
        Ok(true) => String::from_str(alloc, "a solution"),
        Ok(false) => String::from_str(alloc, "no solution"),
        Err(fault) => fault.answer(alloc),
    }
}

/// The same for the two texts.
fn is_solution(alloc: Global, text: &str) -> Result<bool, Misspelt> {
    let (point, system) = parts(text)?;
    let point = point_of(alloc, point)?;
    let system = system_of(alloc, system)?;
    Ok(system.satisfies(&point))
}

/// The point of these values.
fn point_of(alloc: Global, text: &str) -> Result<Point, Misspelt> {
    let mut vals = Vec::new(alloc);
    for word in text.split(' ') {
        vals.push(number(word)?)?;
    }
    if vals.len() > MAX_VARIABLES {
        return Err(Misspelt::Form);
    }
    Ok(Point {
        vals: Items::from_vec(vals),
    })
}
