//! A history that a person worked out, as a text.

ghost use Rattle.policy_tree.specs.Meaning.{meaning_of};
ghost use Rattle.sched_history.specs.Ranges.{CanBePrinted};
ghost use Rattle.table_players.specs.Crowds.{IsCrowd, IsTried};

use policy_tree::Policy;
use round_model::{Entry, ModelMemory, Plan};
use sched_history::put_history;
use sched_io::MemorySink;
use std::alloc::Global;
use table_players::games::is_legal;

/// Whether these are a legal history, and it is the one of the text.
pub(crate) fn is_spelled(
    alloc: Global,
    policy: &Policy,
    plan: &Plan,
    entries: &[Entry],
    text: &str,
) -> Result<bool, ModelMemory>
    requires policy { IsTried (meaning_of policy.now) }
    requires plan { IsCrowd plan.now }
{
    let legal = is_legal(alloc, policy, plan, entries)?;
    if legal {
        Ok(is_text(alloc, entries, plan.cores, text))
    } else {
        Ok(false)
    }
}

/// Room for the text of a history.
const ROOM: u64 = 4096;

/// Whether the text of the second format of these entries is this, and there was memory for it.
fn is_text(alloc: Global, entries: &[Entry], cores: u32, text: &str) -> bool
    requires { CanBePrinted cores entries.now }
{
    let Ok(mut out) = MemorySink::new(alloc, ROOM, Vec::new(alloc)) else {
        return false;
    };
    let _whole = put_history(&mut out, entries, cores);
    out.bytes() == text.as_bytes()
}
