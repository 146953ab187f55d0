//! The worked reports as they are written.

use lists::Items;
use sched_io::{IoMemory, MemorySink};
use sched_report::{
    CauseRow, FailRow, FullReport, RestRow, RoundRow, StillRow, StretchRow, Totals, WasteReport,
    print_report, print_totals, print_waste,
};
use std::alloc::{AllocError, Global};

/// The report on three cores, two of which look at the first before either takes a thread of it.
fn stale_read(alloc: Global) -> Result<FullReport, AllocError> {
    let rounds = Vec::from_slice(alloc, &[opens(1, 0, 0, Some(0))])?;
    let fails = Vec::from_slice(alloc, &[FailRow { at: 8, by: 7 }])?;
    Ok(FullReport {
        rounds: Items::from_vec(rounds),
        stills: Items::from_vec(Vec::new(alloc)),
        fails: Items::from_vec(fails),
        totals: Totals {
            rounds: 1,
            entries: 9,
            steals: 1,
            fails: 1,
            bad: 0,
            wasted: 0,
        },
    })
}

/// The report on eight threads that come to the first of four cores.
fn eight_threads(alloc: Global) -> Result<FullReport, AllocError> {
    let rounds = [
        opens(1, 0, 0, Some(0)),
        opens(2, 24, 3, None),
        opens(3, 12, 0, None),
        opens(4, 0, 0, Some(0)),
    ];
    let later = StillRow {
        first: 2,
        last: 4,
        spread: 24,
        bad: 1,
        rest: Some(RestRow { round: 4, gap: 0 }),
    };
    Ok(FullReport {
        rounds: Items::from_vec(Vec::from_slice(alloc, &rounds)?),
        stills: Items::from_vec(Vec::from_slice(alloc, &[later])?),
        fails: Items::from_vec(Vec::new(alloc)),
        totals: Totals {
            rounds: 4,
            entries: 44,
            steals: 6,
            fails: 0,
            bad: 1,
            wasted: 3,
        },
    })
}

fn opens(number: u32, spread: u64, idle: u32, rest: Option<u64>) -> RoundRow {
    RoundRow {
        number,
        spread,
        idle,
        rest,
    }
}

/// Whether all of the report was written, and what was, where these puts fail.
fn written(
    alloc: Global,
    report: &FullReport,
    failing: &[u64],
) -> Result<(bool, Vec<u8>), AllocError> {
    let mut out = sink(alloc, failing)?;
    let whole = print_report(&mut out, report).is_ok();
    Ok((whole, out.bytes().to_vec(alloc)?))
}

/// A sink with room for a report, where these puts fail.
pub(crate) fn sink(alloc: Global, failing: &[u64]) -> Result<MemorySink, AllocError> {
    MemorySink::new(alloc, 4096, failing.to_vec(alloc)?).map_err(|_error: IoMemory| AllocError)
}

/// The report on a failed steal.
pub(crate) fn a_failed_steal(alloc: Global) -> Result<bool, AllocError> {
    let (whole, bytes) = written(alloc, &stale_read(alloc)?, &[])?;
    let text =
        b"round 1 spread 0 idle 0\nfail 8 by 7\nrounds 1\nentries 9\nsteals 1\nfails 1\nbad 0\nwasted 0\n";
    Ok(whole && bytes.as_slice() == text.as_slice())
}

/// The report on three still rounds.
pub(crate) fn a_still_stretch(alloc: Global) -> Result<bool, AllocError> {
    let (whole, bytes) = written(alloc, &eight_threads(alloc)?, &[])?;
    let text = concat!(
        "round 1 spread 0 idle 0\nround 2 spread 24 idle 3\nround 3 spread 12 idle 0\n",
        "round 4 spread 0 idle 0\nstill 2 4 spread 24 bad 1\nrest 4 gap 0\n",
        "rounds 4\nentries 44\nsteals 6\nfails 0\nbad 1\nwasted 3\n"
    );
    Ok(whole && bytes.as_slice() == text.as_bytes())
}

/// What stands before a put that fails is left.
pub(crate) fn a_put_that_fails(alloc: Global) -> Result<bool, AllocError> {
    let (whole, bytes) = written(alloc, &stale_read(alloc)?, &[2])?;
    Ok(!whole && bytes.as_slice() == b"round 1 spread 0 idle 0\nfail 8 by 7\n".as_slice())
}

/// The totals without rows.
pub(crate) fn totals_alone(alloc: Global) -> Result<bool, AllocError> {
    let mut out = sink(alloc, &[])?;
    let report = stale_read(alloc)?;
    let text = b"rounds 1\nentries 9\nsteals 1\nfails 1\nbad 0\nwasted 0\n";
    Ok(print_totals(&mut out, &report.totals).is_ok() && out.bytes() == text.as_slice())
}

/// A report of a core that waits without a steal, of a failed steal that is explained and of one that isn't.
fn waits_for_ever(alloc: Global) -> Result<WasteReport, AllocError> {
    let rounds = [
        opens(1, 0, 0, Some(0)),
        opens(2, 2, 1, None),
        opens(3, 2, 1, None),
    ];
    let waits = StretchRow {
        still: StillRow {
            first: 2,
            last: 3,
            spread: 2,
            bad: 2,
            rest: None,
        },
        steals: 0,
    };
    let causes = [
        CauseRow { at: 8, by: Some(7) },
        CauseRow { at: 12, by: None },
    ];
    Ok(WasteReport {
        rounds: Items::from_vec(Vec::from_slice(alloc, &rounds)?),
        stretches: Items::from_vec(Vec::from_slice(alloc, &[waits])?),
        causes: Items::from_vec(Vec::from_slice(alloc, &causes)?),
        totals: Totals {
            rounds: 3,
            entries: 17,
            steals: 0,
            fails: 2,
            bad: 2,
            wasted: 2,
        },
    })
}

/// The report that tells of waste.
pub(crate) fn a_core_that_waits(alloc: Global) -> Result<bool, AllocError> {
    let mut out = sink(alloc, &[])?;
    let waste = waits_for_ever(alloc)?;
    let text = concat!(
        "round 1 spread 0 idle 0\nround 2 spread 2 idle 1\nround 3 spread 2 idle 1\n",
        "still 2 3 spread 2 bad 2 steals 0\nrest -\nfail 8 by 7\nfail 12\n",
        "rounds 3\nentries 17\nsteals 0\nfails 2\nbad 2\nwasted 2\n"
    );
    Ok(print_waste(&mut out, &waste).is_ok() && out.bytes() == text.as_bytes())
}
