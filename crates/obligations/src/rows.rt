//! The rows of one conjunctive case.

ghost use Rattle.std.specs.Prelude.{◌≡◌, [], ◌∷◌, ◌++◌, IfOk, OnOk};

use linear_form::Row;
use lists::Items;
use std::alloc::{AllocError, Global};
use std::marker::Model;

/// Rows that hold together, in order. A contract sees the list.
#[derive(Drop)]
pub struct Rows {
    rows: Vec<Row>,
}

impl Model for Rows {
    ghost use Rattle.std.specs.Prelude.{List};
    ghost use Rattle.linear_form.specs.declared.form.Row.{Row};

    ghost Value = { List Row };

    ghost view = { λ list. list.rows.items };
}

impl Rows {
    /// No row. It takes no memory.
    pub fn new(alloc: Global) -> Rows
        ensures { result ≡ [] }
    {
        Rows {
            rows: Vec::new(alloc),
        }
    }

    /// One more row at the end.
    pub fn push(&mut self, row: Row) -> Result<(), AllocError>
        ensures { OnOk result (self.new ≡ self.old ++ row ∷ []) }
    {
        match self.rows.push(row) {
            Ok(()) => Ok(()),
            Err(_unstored) => Err(AllocError),
        }
    }

    /// The rows as a slice.
    pub fn as_slice(&self) -> &[Row]
        ensures { result.now ≡ self.now }
    {
        self.rows.as_slice()
    }

    /// The same rows again.
    pub fn copy(&self, alloc: Global) -> Result<Rows, AllocError>
        ensures { IfOk result (λ copy. copy ≡ self.now) }
    {
        Rows::new(alloc).followed_by(alloc, self)
    }

    /// These rows, and copies of the others behind them.
    pub fn followed_by(mut self, alloc: Global, more: &Rows) -> Result<Rows, AllocError>
        ensures { IfOk result (λ all. all ≡ self ++ more.now) }
    {
        for row in more.as_slice() {
            self.push(copy_of_row(alloc, row)?)?;
        }
        Ok(self)
    }
}

/// The same row again.
fn copy_of_row(alloc: Global, row: &Row) -> Result<Row, AllocError>
    ensures { IfOk result (λ copy. copy ≡ row.now) }
{
    let terms = Vec::from_slice(alloc, row.terms.as_slice())?;
    Ok(Row {
        terms: Items::from_vec(terms),
        bound: row.bound,
    })
}
