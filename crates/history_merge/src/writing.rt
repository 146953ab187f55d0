//! The history's text, written as the logs are walked: no list of its entries is made.

ghost use Rattle.std.specs.Prelude.{◌≡◌, IfOk, length};
ghost use Rattle.sched_io.specs.Puts.{Puts};
ghost use Rattle.history_merge.specs.Merged.{CanBeWritten, merged, text_lines};

use crate::cursors::Cursors;
use crate::merging::entry_count;
use core_state::Closed;
use sched_history::{put_entry, put_header, start_behind};
use sched_io::{PutFault, Sink};

/// Writes the text of the history of which these are the logs in the second format, a line at a time: the header, and
/// then the entries. It tells the number of entries, the header not counted.
pub fn write_merged<S: Sink>(closed: &Closed, out: &mut S) -> Result<u32, PutFault>
    requires { CanBeWritten closed.now }
    ensures lines { Puts (text_lines closed.now) result (S.shown out.old) (S.shown out.new) }
    ensures count { IfOk result (λ count. count ≡ length (merged closed.now)) }
{
    put_header(out, closed.cores())?;
    let count = entry_count(closed) as u32;
    let mut cursors = Cursors::start();
    let mut start = 0;
    for at in 0..count {
        let Some(entry) = cursors.lend_entry(closed, at) else {
            unreachable!()
        };
        put_entry(out, entry, start)?;
        start = start_behind(start, entry, at + 1);
    }
    Ok(count)
}
