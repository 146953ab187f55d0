//! Rows over the places of the variables that are kept.

ghost use Rattle.std.specs.Prelude.{◌≡◌, ℕ, ◌<◌, ◌≤◌, IfOk, slice_index_or, vec_len};
ghost use Rattle.obligations.specs.Marks.{HasSmallTerms, kept_of, placed_by};
ghost use Rattle.obligations.specs.Systems.{kept_below, place_of};

use linear_form::{Row, Term};
use lists::Items;
use sched_base::MAX_VARIABLES;
use std::alloc::{AllocError, Global};

/// The variables that are kept, and the place of each among them.
#[derive(Drop)]
pub struct Places {
    /// The kept variables, rising.
    pub vars: Vec<u32>,
    /// How many kept variables come before each variable.
    pub places: [u32; MAX_VARIABLES],
}

/// The places of the marked variables.
pub fn places_of(alloc: Global, marks: &[bool; MAX_VARIABLES]) -> Result<Places, AllocError>
    ensures vars { IfOk result (λ p. p.vars.items ≡ kept_below (kept_of marks.now) MAX_VARIABLES) }
    ensures few { IfOk result (λ p. vec_len p.vars ≤ MAX_VARIABLES) }
    ensures places { IfOk result (λ p. (v : ℕ) → v < MAX_VARIABLES →
        slice_index_or p.places v 0 ≡ place_of (kept_of marks.now) v) }
{
    let mut vars = Vec::new(alloc);
    let mut places = [0; MAX_VARIABLES];
    for variable in 0..MAX_VARIABLES {
        places[variable] = vars.len() as u32;
        if marks[variable] {
            vars.push(variable as u32)?;
        }
    }
    Ok(Places { vars, places })
}

/// The row over the places of its variables.
pub fn placed(alloc: Global, row: &Row, places: &[u32; MAX_VARIABLES]) -> Result<Row, AllocError>
    requires { HasSmallTerms row.now }
    ensures { IfOk result (λ there. there ≡ placed_by places.now row.now) }
{
    let old = row.terms.as_slice();
    let mut terms = Vec::new(alloc);
    for term in old {
        terms.push(Term {
            var: places[term.var as usize],
            coef: term.coef,
        })?;
    }
    Ok(Row {
        terms: Items::from_vec(terms),
        bound: row.bound,
    })
}
