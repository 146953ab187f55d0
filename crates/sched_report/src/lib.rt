//! What a whole history wasted, and why its steals failed: a row for each round, for each longest stretch of still
//! rounds and for each failed steal, and the totals. Of a stretch it tells when its cores come to rest, so that none may
//! steal from another, and how far apart their loads are then.
//!
//! A report on a history of any policy that can be played tells the same, where a failed steal may have no reason, and
//! of each stretch how many steals it has.
//!
//! A contract sees the rows as lists, and says what they are of the history's meaning.
#![tactic(auto)]

mod causes;
mod explained;
mod laws;
mod memory;
mod openings;
mod printing;
mod reporting;
mod resting;
mod rows;
mod steals;
mod stretches;
mod telling;
mod totals;
mod walk;

pub use laws::{law_bad_rounds, law_bad_rows, law_one_report, law_rest_rows, law_waste};
pub use memory::ReportMemory;
pub use printing::{print_report, print_totals, print_waste};
pub use reporting::{report, waste};
pub use rows::{
    CauseRow, CauseRows, FailRow, FailRows, FullReport, RestRow, RoundRow, RoundRows, StillRow,
    StillRows, StretchRow, StretchRows, Totals, WasteReport,
};
