//! The numbered rows of a system, column by column.

ghost use Rattle.std.specs.Prelude.{◌≡◌, ◌+◌, ◌*◌, ◌<◌, length, map};
ghost use Rattle.std.specs.List.Sorted.{IsStrictlyIncreasing};
ghost use Rattle.linear_form.specs.declared.form.Term.{Term};
ghost use Rattle.linear_form.specs.System.{IsBound, IsSystem};
ghost use Rattle.linear_cert.specs.Columns.{coefficient, entry, value_in};
ghost use Rattle.linear_cert.specs.Rows.{lower_row, numbered_row, upper_row};

use linear_form::{Bound, Row, Term};

/// A column of the rows.
#[derive(Clone, Copy)]
pub enum Column {
    /// The coefficients of the variable with this number.
    Variable(u32),
    /// The rows' bounds.
    RightSide,
}

/// What the row with this number has in the column. Of a system with m rows, its own are 0 to m - 1;
/// rows m + 2i and m + 2i + 1 say the range of variable i.
pub fn entry(bounds: &[Bound], rows: &[Row], number: u32, column: Column) -> i64
    requires system { IsSystem (record { bounds = bounds.now; rows = rows.now }) }
    requires named { number < length rows.now + 2 * length bounds.now }
    ensures { result ≡ value_in (entry column) (numbered_row bounds.now rows.now number) }
{
    let number = number as usize;
    if number < rows.len() {
        return row_entry(&rows[number], column);
    }
    let place = number - rows.len();
    let variable = (place / 2) as u32;
    let range = bounds[place / 2];
    if place % 2 == 0 {
        lower_entry(variable, range, column)
    } else {
        upper_entry(variable, range, column)
    }
}

fn row_entry(row: &Row, column: Column) -> i64
    requires { IsStrictlyIncreasing (map (λ (term : Term). term.var) row.now.terms) }
    ensures { result ≡ entry column row.now }
{
    match column {
        Column::Variable(variable) => coefficient(row.terms.as_slice(), variable),
        Column::RightSide => row.bound,
    }
}

fn lower_entry(variable: u32, range: Bound, column: Column) -> i64
    requires { IsBound range }
    ensures { result ≡ entry column (lower_row variable range) }
{
    match column {
        Column::Variable(asked) if asked == variable => -1,
        Column::Variable(_) => 0,
        Column::RightSide => -range.lo,
    }
}

fn upper_entry(variable: u32, range: Bound, column: Column) -> i64
    ensures { result ≡ entry column (upper_row variable range) }
{
    match column {
        Column::Variable(asked) if asked == variable => 1,
        Column::Variable(_) => 0,
        Column::RightSide => range.hi,
    }
}

// The variables rise, so the first term of the variable is the only one.
fn coefficient(terms: &[Term], variable: u32) -> i64
    requires { IsStrictlyIncreasing (map (λ (term : Term). term.var) terms.now) }
    ensures { result ≡ coefficient variable terms.now }
{
    for term in terms {
        if term.var == variable {
            return term.coef;
        }
    }
    0
}
