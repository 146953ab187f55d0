//! What changes in a past by an entry of one core, beside the cores.

ghost use Rattle.std.specs.Prelude.{◌≡◌, ◌||◌, ◌<◌, ◌≤◌, All, Some, length, slice_get, slice_set, true};
ghost use Rattle.round_model.specs.Kinds.{is_attempt as makes_attempt, is_work as runs_unit};
ghost use Rattle.round_model.specs.Moves.{without_first};
ghost use Rattle.round_model.specs.Updates.{IsFirstPlace};
ghost use Rattle.round_judge.specs.declared.past.Turn.{Turn};
ghost use Rattle.round_judge.specs.Readable.{IsCountable};
ghost use Rattle.round_judge.specs.Past.{arrives_at};
ghost use Rattle.round_judge.specs.Notes.{IsLook};

use crate::past::{Arrival, Row, Turn};
use lists::Items;
use round_model::{Entry, State};
use sched_base::{CoreId, MAX_CORES, ThreadId};

/// How far the core has come, with that entry of its.
pub(crate) fn note_turn(turns: &mut Items<Turn>, core: CoreId, entry: &Entry)
    requires { core < length turns.old }
    ensures { (t : Turn) → slice_get turns.old core ≡ Some t → turns.new ≡ slice_set turns.old core
        (record { worked = t.worked || runs_unit entry.now; attempted = t.attempted || makes_attempt entry.now }) }
{
    let turn = *turns.get(core);
    let _turn = turns.replace(
        core,
        Turn {
            worked: turn.worked || entry.is_work(),
            attempted: turn.attempted || entry.is_attempt(),
        },
    );
}

/// The first thread that the core was to let in has entered.
pub(crate) fn note_arrival(arrivals: &mut Items<Arrival>, core: CoreId)
    ensures { arrivals.new ≡ without_first (arrives_at core) arrivals.old }
{
    if let Some(place) = first_place(arrivals, core) {
        let _arrival = arrivals.remove(place);
    }
}

/// The place of the first of these arrivals that comes by the core.
fn first_place(arrivals: &Items<Arrival>, core: CoreId) -> Option<u32>
    ensures { IsFirstPlace (arrives_at core) arrivals.now result }
{
    for at in 0..arrivals.len() {
        if arrivals.get(at).core == core {
            return Some(at);
        }
    }
    None
}

/// The thread has ended. A number that no thread has is left out.
pub fn note_end(ended: &mut Items<bool>, thread: ThreadId)
    ensures { ended.new ≡ slice_set ended.old thread true }
{
    if thread < ended.len() {
        let _before = ended.replace(thread, true);
    }
}

/// Puts in the row what is to be seen after the entry of the cores that it touches. The others stay as they were seen.
pub(crate) fn look(row: &mut Row, state: &State, entry: &Entry)
    requires few { length state.now ≤ MAX_CORES }
    requires countable { All IsCountable state.now }
    ensures { IsLook row.old state.now entry.now row.new }
{
    for core in 0..state.len() {
        if entry.touches(core) {
            row[core as usize] = state.get(core).seen();
        }
    }
}
