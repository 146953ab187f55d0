//! The workers' lists of hands.

ghost use Rattle.std.specs.Prelude.{◌≡◌, ◌≤◌, length, IfOk};
ghost use Rattle.crew_play.specs.Hands.{AllRoomy};
ghost use Rattle.crew_play.specs.Room.{room_for};

use crate::hands::Hand;
use std::alloc::{AllocError, Global};

/// The most cores that one of so many workers plays.
pub(crate) fn most_cores(cores: u32, workers: u32) -> usize
    requires workers { 1 ≤ workers }
    ensures { result ≡ room_for cores workers }
{
    (cores / workers) as usize + 1
}

/// A list for each worker, with room for all its hands.
pub(crate) fn make_lists(
    alloc: Global,
    workers: u32,
    cores: u32,
) -> Result<Vec<Vec<Hand>>, AllocError>
    requires workers { 1 ≤ workers }
    ensures roomy { IfOk result (λ lists. AllRoomy (room_for cores workers) lists.items) }
    ensures len { IfOk result (λ lists. length lists.items ≡ workers) }
{
    let mut lists = Vec::with_capacity(alloc, workers as usize)?;
    for _ in 0..workers {
        lists.push_reserved(Vec::with_capacity(alloc, most_cores(cores, workers))?);
    }
    Ok(lists)
}
