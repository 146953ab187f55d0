//! Plain bodies of the model on the worked rows.

use model_tests::builders::{basic_choice, basic_policy};
use model_tests::plans::{may_come_first, no_past, two_cores};
use round_judge::{Past, opening, round_due};
use round_model::{Did, Entry, History, ModelMemory, reads_fit, round_start, spread_of};
use sched_base::Reads;
use std::alloc::{AllocError, Global};

/// The sums of the differences of loads.
pub(crate) fn spreads_of_the_eight_threads() -> bool {
    spread_of(&[8, 0, 0, 0]) == 24
        && spread_of(&[5, 1, 1, 1]) == 12
        && spread_of(&[2, 2, 2, 2]) == 0
        && spread_of(&[]) == 0
}

/// The only overloaded core, none where no core has two, of equals the lowest, and never itself.
pub(crate) fn choices_of_the_basic_policy(alloc: Global) -> Result<bool, AllocError> {
    let policy = basic_policy(alloc)?;
    Ok(
        basic_choice(&policy, [2, 0, 0], 1) == Some(0)
            && basic_choice(&policy, [1, 0, 1], 1) == None
            && basic_choice(&policy, [3, 3, 0], 2) == Some(0)
            && basic_choice(&policy, [9, 0, 0], 0) == None,
    )
}

/// Which positions may be read, and where a round starts.
pub(crate) fn windows_of_reads(alloc: Global) -> Result<bool, AllocError> {
    Ok(reads_within_a_round() && starts_of_rounds(alloc)?)
}

/// Reads before the round, behind the entry, and one too few don't fit.
fn reads_within_a_round() -> bool {
    let reads = two_reads(5, 6);
    reads_fit(&reads, 2, 1, 6)
        && !reads_fit(&reads, 2, 6, 6)
        && !reads_fit(&reads, 2, 1, 5)
        && !reads_fit(&reads, 3, 1, 6)
}

/// Without a round the start is 0, else it is just behind the last one.
fn starts_of_rounds(alloc: Global) -> Result<bool, AllocError> {
    let none = History::from_vec(Vec::new(alloc));
    let entries = [
        Entry::Round { number: 1 },
        idle(0),
        Entry::Round { number: 2 },
        Entry::Pass {
            by: 0,
            reads: two_reads(5, 6),
        },
    ];
    let history = History::from_vec(Vec::from_slice(alloc, &entries)?);
    Ok(round_start(&none) == 0 && round_start(&history) == 3)
}

/// The core that acts, and those that an entry touches.
pub(crate) fn cores_of_an_entry() -> bool {
    let reads = Reads::empty();
    let wake = Entry::Wake {
        thread: 1,
        by: 0,
        at: 2,
        reads,
    };
    let enter = Entry::Enter {
        thread: 1,
        by: 0,
        at: 2,
        reads,
    };
    let wakes = wake.acts(0)
        && !wake.acts(2)
        && wake.touches(0)
        && wake.touches(2)
        && !wake.touches(1);
    let enters = enter.acts(0) && enter.touches(2) && !enter.touches(0);
    wakes && enters && !enter.is_round() && !enter.is_attempt()
}

/// Round 1 is due, and nothing else may come first.
pub(crate) fn before_the_first_round(alloc: Global) -> Result<bool, ModelMemory> {
    let policy = basic_policy(alloc)?;
    let plan = two_cores(alloc)?;
    let past = no_past(alloc, &plan)?;
    Ok(
        opening(alloc, &plan)?.len() == 2
            && round_due(&plan, &past)
            && may_come_first(&policy, &plan, &past, &Entry::Round { number: 1 })
            && !may_come_first(&policy, &plan, &past, &Entry::Round { number: 2 })
            && !may_come_first(&policy, &plan, &past, &idle(0)),
    )
}

/// The core has nothing to run.
pub(crate) fn idle(by: u32) -> Entry {
    Entry::Work {
        by,
        did: Did::Nothing,
    }
}

/// Reads of two cores at these positions.
pub(crate) fn two_reads(first: u32, second: u32) -> Reads {
    let mut reads = Reads::empty();
    reads.push(first);
    reads.push(second);
    reads
}
