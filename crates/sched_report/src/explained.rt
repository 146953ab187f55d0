//! Failed steals of which each has an explanation.

ghost use Rattle.std.specs.Prelude.{◌≡◌, ◌<◌, ◌^◌, All, IfOk, length, map};
ghost use Rattle.sched_report.specs.CauseRows.{HasCause, with_cause};

use crate::rows::{CauseRow, FailRow, FailRows};
use std::alloc::{AllocError, Global};

/// The rows of failed steals, all of which are explained.
pub(crate) fn explained(alloc: Global, causes: &[CauseRow]) -> Result<FailRows, AllocError>
    requires each { All HasCause causes.now }
    requires few { length causes.now < 2 ^ 32 }
    ensures { IfOk result (λ fails. map with_cause fails ≡ causes.now) }
{
    let mut fails = FailRows::from_vec(Vec::new(alloc));
    for row in causes {
        fails.push(FailRow {
            at: row.at,
            by: row.by.unwrap(),
        })?;
    }
    Ok(fails)
}
