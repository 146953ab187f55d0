//! Steals of several threads, entry by entry and by serial play: core 1 takes threads of core 0.

ghost use Rattle.std.specs.Prelude.{◌≤◌, IfOk, IfSome, length};
ghost use Rattle.sched_base.specs.declared.limits.TheConstants.{MAX_ENTRIES, MAX_STOLEN};
ghost use Rattle.sched_history.specs.Ranges.{CanBePrinted};
ghost use Rattle.row_tests.specs.declared.batches.TheConstants.{CORES};

use crate::reports::sink;
use history_reader::{HistoryFault, read_history};
use model_tests::batched::{BatchRow, legal_length_in, play_in};
use round_model::{Entry, History, ModelMemory};
use sched_history::put_history;
use serial_steps::Played;
use std::alloc::{AllocError, Global};

// How many cores the machine has.
const CORES: u32 = 2;

/// Six threads, up to the steal.
const SIX: &[u8] =
    b"history 2 cores 2\nround 1\nenter 1 0 0\nenter 2 0 0\nenter 3 0 0\nenter 4 0 0\nenter 5 0 0\nenter 6 0 0\n\
    work 0 1 keep\npass 0 : 7 0\nwork 1 -\n";

/// The same, and a thread of core 1.
const SEVEN: &[u8] =
    b"history 2 cores 2\nround 1\nenter 1 0 0\nenter 2 0 0\nenter 3 0 0\nenter 4 0 0\nenter 5 0 0\nenter 6 0 0\n\
    work 0 1 keep\npass 0 : 7 0\nenter 7 1 1\nwork 1 7 keep\n";

/// Three threads, up to the steal.
const THREE: &[u8] =
    b"history 2 cores 2\nround 1\nenter 1 0 0\nenter 2 0 0\nenter 3 0 0\nwork 0 1 keep\npass 0 : 4 0\nwork 1 -\n";

/// Threads of weight 1: a steal stops where the gap is closed, or at the limit.
pub(crate) fn batches_of_threads(alloc: Global) -> Result<bool, ModelMemory> {
    Ok(
        plays(
            alloc,
            BatchRow::SixThreads,
            8,
            SIX,
            b"steal 1 0 2 3 4 : 8 9\n",
        )? && plays(
            alloc,
            BatchRow::SixThreads,
            2,
            SIX,
            b"steal 1 0 2 3 : 8 9\n",
        )? && plays(alloc, BatchRow::SixThreads, 1, SIX, b"steal 1 0 2 : 8 9\n")?
            && plays(
                alloc,
                BatchRow::SevenThreads,
                8,
                SEVEN,
                b"steal 1 0 2 3 : 8 10\n",
            )?,
    )
}

/// Threads of several weights: a steal stops before one that weighs too much, at the limit, or where no thread waits.
pub(crate) fn batches_of_weights(alloc: Global) -> Result<bool, ModelMemory> {
    Ok(
        plays(
            alloc,
            BatchRow::SixWeights,
            8,
            SIX,
            b"steal 1 0 3 2 : 8 9\n",
        )? && plays(alloc, BatchRow::SixWeights, 1, SIX, b"steal 1 0 3 : 8 9\n")?
            && plays(
                alloc,
                BatchRow::ThreeWeights,
                8,
                THREE,
                b"steal 1 0 2 3 : 5 6\n",
            )?,
    )
}

/// A list beyond the limit, one too short, one too long, and one in another order.
pub(crate) fn lists_of_another_length_or_order(alloc: Global) -> Result<bool, ModelMemory> {
    Ok(
        misses(
            alloc,
            BatchRow::SixThreads,
            2,
            SIX,
            b"steal 1 0 2 3 4 : 8 9\n",
        )? && misses(
            alloc,
            BatchRow::SixThreads,
            8,
            SIX,
            b"steal 1 0 2 3 : 8 9\n",
        )? && misses(
            alloc,
            BatchRow::SixThreads,
            8,
            SIX,
            b"steal 1 0 2 3 4 5 : 8 9\n",
        )? && misses(
            alloc,
            BatchRow::SixThreads,
            8,
            SIX,
            b"steal 1 0 3 2 4 : 8 9\n",
        )? && misses(
            alloc,
            BatchRow::SixWeights,
            8,
            SIX,
            b"steal 1 0 2 3 : 8 9\n",
        )?,
    )
}

/// A list with a thread twice, with the one that runs, with one that is nowhere, and with one of the thief.
pub(crate) fn lists_of_other_threads(alloc: Global) -> Result<bool, ModelMemory> {
    Ok(
        misses(
            alloc,
            BatchRow::SixThreads,
            8,
            SIX,
            b"steal 1 0 2 3 3 : 8 9\n",
        )? && misses(
            alloc,
            BatchRow::SixThreads,
            8,
            SIX,
            b"steal 1 0 2 3 1 : 8 9\n",
        )? && misses(
            alloc,
            BatchRow::SixThreads,
            8,
            SIX,
            b"steal 1 0 2 3 7 : 8 9\n",
        )? && misses(
            alloc,
            BatchRow::SevenThreads,
            8,
            SEVEN,
            b"steal 1 0 2 7 : 8 10\n",
        )?,
    )
}

/// Whether the steal is legal behind that front, and serial play comes to just this history.
fn plays(
    alloc: Global,
    row: BatchRow,
    limit: u32,
    front: &[u8],
    steal: &[u8],
) -> Result<bool, ModelMemory>
    requires some { 1 ≤ limit }
    requires few { limit ≤ MAX_STOLEN }
{
    let text = joined(alloc, front, steal)?;
    let Some(history) = history_of(alloc, text.as_slice())? else {
        return Ok(false);
    };
    let legal = legal_length_in(alloc, row, limit, history.as_slice())?;
    Ok(legal == history.len() && is_played(alloc, row, limit, text.as_slice())?)
}

/// Whether the front is legal, and the steal isn't legal behind it.
fn misses(
    alloc: Global,
    row: BatchRow,
    limit: u32,
    front: &[u8],
    steal: &[u8],
) -> Result<bool, ModelMemory>
    requires some { 1 ≤ limit }
    requires few { limit ≤ MAX_STOLEN }
{
    let text = joined(alloc, front, steal)?;
    let Some(history) = history_of(alloc, text.as_slice())? else {
        return Ok(false);
    };
    let legal = legal_length_in(alloc, row, limit, history.as_slice())?;
    Ok(legal.checked_add(1) == Some(history.len()))
}

/// The one text, and the other behind it.
fn joined(alloc: Global, front: &[u8], behind: &[u8]) -> Result<Vec<u8>, AllocError> {
    let mut text = Vec::from_slice(alloc, front)?;
    text.extend_from_slice(behind)?;
    Ok(text)
}

/// The history of the text, `None` where it has none.
fn history_of(alloc: Global, text: &[u8]) -> Result<Option<History>, ModelMemory>
    ensures { IfOk result (λ read. IfSome read (λ history. length history ≤ MAX_ENTRIES)) }
{
    match read_history(alloc, text, CORES) {
        Ok(history) => Ok(Some(history)),
        Err(HistoryFault::Memory) => Err(ModelMemory::Memory),
        Err(HistoryFault::BadLine(_)) => Ok(None),
    }
}

/// Whether serial play comes to the history of that text.
fn is_played(alloc: Global, row: BatchRow, limit: u32, text: &[u8]) -> Result<bool, ModelMemory>
    requires some { 1 ≤ limit }
    requires few { limit ≤ MAX_STOLEN }
{
    let played = play_in(alloc, row, limit)?;
    match played {
        Played::Whole(history) => Ok(is_spelled(alloc, history.as_slice(), text)?),
        Played::Full(_) => Ok(false),
    }
}

/// Whether the history is written as that text.
fn is_spelled(alloc: Global, history: &[Entry], text: &[u8]) -> Result<bool, AllocError>
    requires { CanBePrinted CORES history.now }
{
    let mut out = sink(alloc, &[])?;
    Ok(put_history(&mut out, history, CORES).is_ok() && out.bytes() == text)
}
