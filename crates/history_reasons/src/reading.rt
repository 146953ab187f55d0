//! Why an entry may not have these reads.

ghost use Rattle.history_reasons.specs.Readings.{IsReadReason};

use crate::reason::Reason;
use sched_base::{Pos, Reads};

/// Why the entry at the position `last` may not have these reads, if there is a reason: `count` are asked for, made
/// from `first` on.
pub(crate) fn why_not_read(reads: &Reads, count: u32, first: Pos, last: Pos) -> Option<Reason>
    ensures { IsReadReason reads.now count first last result }
{
    if reads.len() != count {
        return Some(Reason::ReadCount(count));
    }
    for core in 0..reads.len() {
        let saw = reads.get(core);
        if saw < first || last < saw {
            return Some(Reason::Read {
                core,
                saw,
                first,
                last,
            });
        }
    }
    None
}
