//! How many systems obligations have, and of which kind they are.

use crate::policies::{find, obligations_of};
use linear_form::System;
use obligations::Obligations;
use std::alloc::{AllocError, Global};
use std::fmt::Write;

/// How many systems the first two obligations of a policy have, or which obligation has too many cases.
pub(crate) fn case_counts(alloc: Global, policy: &str) -> Result<String, AllocError> {
    match obligations_of(alloc, policy) {
        Ok(all) => first_counts(alloc, &all),
        Err(fault) => fault.answer(alloc),
    }
}

/// The counts of the two.
fn first_counts(alloc: Global, all: &Obligations) -> Result<String, AllocError> {
    let (idle, victims) = (systems_in(all, "B1").len(), systems_in(all, "B2").len());
    format!(in alloc; "B1 {idle}, B2 {victims}")
}

/// The systems of the obligation of that name.
fn systems_in<'a>(all: &'a Obligations, name: &str) -> &'a [System] {
    match find(all, name) {
        Some(obligation) => obligation.systems.as_slice(),
        None => &[],
    }
}

/// The kind of each system of an obligation, and how many points its ranges have. `NAME; POLICY` spells the two.
pub(crate) fn system_kinds(alloc: Global, text: &str) -> Result<String, AllocError> {
    let Some((name, policy)) = text.split_once("; ") else {
        return String::from_str(alloc, "no policy");
    };
    match obligations_of(alloc, policy) {
        Ok(all) => kinds_of(alloc, systems_in(&all, name)),
        Err(fault) => fault.answer(alloc),
    }
}

/// The kinds of these systems.
fn kinds_of(alloc: Global, systems: &[System]) -> Result<String, AllocError> {
    let mut text = String::new(alloc);
    for system in systems {
        let kind = if system.is_difference() {
            "differences"
        } else {
            "others"
        };
        match system.points() {
            Some(points) => write!(&mut text, "{kind} of {points} points; ")?,
            None => write!(&mut text, "{kind} of too many points; ")?,
        }
    }
    Ok(text)
}
