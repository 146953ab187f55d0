//! The systems of an obligation, with the policy's variables in place of their places. `NAME; POLICY` spells the
//! obligation and the policy.

use crate::policies::{find, obligations_of};
use linear_form::{Row, System};
use obligations::{Obligation, Obligations};
use std::alloc::{AllocError, Global};
use std::fmt::Write;

/// A line of the variables with their ranges, and one for each system. Where there is none, `none`.
pub(crate) fn systems_of(alloc: Global, text: &str) -> Result<String, AllocError> {
    let Some((name, policy)) = text.split_once("; ") else {
        return String::from_str(alloc, "no policy");
    };
    match obligations_of(alloc, policy) {
        Ok(all) => systems_in(alloc, &all, name),
        Err(fault) => fault.answer(alloc),
    }
}

/// The same of the obligation of that name.
fn systems_in(alloc: Global, all: &Obligations, name: &str) -> Result<String, AllocError> {
    let Some(obligation) = find(all, name) else {
        return String::from_str(alloc, "no such obligation");
    };
    let Some(system) = obligation.systems.as_slice().first() else {
        return String::from_str(alloc, "none");
    };
    let mut text = String::new(alloc);
    show_ranges(&mut text, obligation, system)?;
    show_systems(&mut text, obligation)?;
    Ok(text)
}

/// The variables with their ranges, which all systems of an obligation have in common.
fn show_ranges(
    text: &mut String,
    obligation: &Obligation,
    system: &System,
) -> Result<(), AllocError> {
    let variables = obligation.vars.as_slice().iter();
    for (variable, bound) in variables.zip(system.bounds()) {
        write!(text, "{variable} in {}..{} ", bound.lo, bound.hi)?;
    }
    text.push_str("\n")
}

/// Each system on a line.
fn show_systems(text: &mut String, obligation: &Obligation) -> Result<(), AllocError> {
    for system in obligation.systems.as_slice() {
        show_system(text, system, obligation.vars.as_slice())?;
    }
    Ok(())
}

/// The rows of a system.
fn show_system(text: &mut String, system: &System, variables: &[u32]) -> Result<(), AllocError> {
    for row in system.rows() {
        show_row(text, row, variables)?;
    }
    text.push_str("\n")
}

/// A row.
fn show_row(text: &mut String, row: &Row, variables: &[u32]) -> Result<(), AllocError> {
    for term in row.terms.as_slice() {
        match variables.get(term.var as usize) {
            Some(variable) => write!(text, "{:+}*{variable} ", term.coef)?,
            None => text.push_str("no such variable ")?,
        }
    }
    write!(text, "<= {}; ", row.bound)
}
