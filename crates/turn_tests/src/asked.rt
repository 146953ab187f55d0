//! Whether two turns ask for the same.

use sched_base::Reads;
use select_phase::Look;
use turn_steps::Ask;

/// Whether both ask for the same.
pub(crate) fn is_same(one: &Ask, other: &Ask) -> bool {
    match (one, other) {
        (Ask::Arrive(thread), Ask::Arrive(twin)) => thread == twin,
        (Ask::Wake, Ask::Wake) => true,
        (Ask::Work, Ask::Work) => true,
        (Ask::Look, Ask::Look) => true,
        (Ask::Act(look), Ask::Act(twin)) => is_same_look(look, twin),
        (Ask::Over, Ask::Over) => true,
        _ => false,
    }
}

/// Whether both are the same look.
fn is_same_look(look: &Look, twin: &Look) -> bool {
    look.by == twin.by && look.choice == twin.choice && read_the_same(&look.reads, &twin.reads)
}

/// Whether both are the same positions.
fn read_the_same(reads: &Reads, others: &Reads) -> bool {
    if reads.len() != others.len() {
        return false;
    }
    for at in 0..reads.len() {
        if reads.get(at) != others.get(at) {
            return false;
        }
    }
    true
}
