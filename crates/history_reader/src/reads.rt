//! Reads the reads of an entry, behind its colon.

ghost use Rattle.std.specs.Prelude.{◌≡◌, ◌≢◌, ◌⊎◌, ◌≤◌, [], List, MatchOption, ℕ};
ghost use Rattle.sched_base.specs.declared.limits.TheConstants.{MAX_CORES, MAX_ENTRIES};
ghost use Rattle.sched_history.specs.Ranges.{AreOneEach, ArePlacementReads, AreReads, AreUpTo, IsCoreCount};
ghost use Rattle.sched_history.specs.Spelling.{behind_colon, distances, reads_from, spaced};
ghost use Rattle.sched_history.specs.Spelling.{reads_in as text_of_reads};
ghost use Rattle.history_reader.specs.Code.Kinds.{IsRightForm};

use crate::numbers::number_at;
use sched_base::{MAX_CORES, MAX_ENTRIES, Pos, Reads};
use sched_history::{FIRST_FORMAT_CORES, LineForm};

/// The reads by which a thread was placed, where the text is that of such, and none where none were made.
pub fn placement_reads_in(text: &[u8], form: LineForm) -> Option<Reads>
    requires { IsRightForm form }
    ensures { MatchOption result
        ((reads : List ℕ) → ArePlacementReads form reads → text.now ≢ text_of_reads form reads)
        (λ reads. ArePlacementReads form reads × (text.now ≡ text_of_reads form reads)) }
{
    match form {
        LineForm::First => reads_in(text, form),
        LineForm::Second { cores, start } => of_each_or_none(text, cores, start),
    }
}

/// The reads of an attempt, where the text is that of such.
pub fn reads_in(text: &[u8], form: LineForm) -> Option<Reads>
    requires { IsRightForm form }
    ensures { MatchOption result
        ((reads : List ℕ) → AreReads form reads → text.now ≢ text_of_reads form reads)
        (λ reads. AreReads form reads × (text.now ≡ text_of_reads form reads)) }
{
    match form {
        LineForm::First => up_to(text, FIRST_FORMAT_CORES as u32, 0),
        LineForm::Second { cores, start } => of_each(text, cores, start),
    }
}

/// A position of each core, or none: distances from the start, behind a colon if there are any.
fn of_each_or_none(text: &[u8], cores: u32, start: Pos) -> Option<Reads>
    requires cores { IsCoreCount cores }
    requires start { start ≤ MAX_ENTRIES }
    ensures { MatchOption result
        ((reads : List ℕ) → (reads ≡ []) ⊎ AreOneEach cores start reads → text.now ≢ reads_from start reads)
        (λ reads. ((reads ≡ []) ⊎ AreOneEach cores start reads) × (text.now ≡ reads_from start reads)) }
{
    if text.is_empty() {
        return Some(Reads::empty());
    }
    of_each(text, cores, start)
}

/// A position of each core: distances from the start, behind a colon.
fn of_each(text: &[u8], cores: u32, start: Pos) -> Option<Reads>
    requires cores { IsCoreCount cores }
    requires start { start ≤ MAX_ENTRIES }
    ensures { MatchOption result
        ((reads : List ℕ) → AreOneEach cores start reads → text.now ≢ reads_from start reads)
        (λ reads. AreOneEach cores start reads × (text.now ≡ reads_from start reads)) }
{
    let reads = up_to(text, cores, start)?;
    if reads.len() == cores {
        Some(reads)
    } else {
        None
    }
}

/// At most so many positions: distances from the start, behind a colon.
fn up_to(text: &[u8], most: u32, start: Pos) -> Option<Reads>
    requires most { most ≤ MAX_CORES }
    requires start { start ≤ MAX_ENTRIES }
    ensures { MatchOption result
        ((reads : List ℕ) → AreUpTo most start reads → text.now ≢ behind_colon (distances start reads))
        (λ reads. AreUpTo most start reads × (text.now ≡ behind_colon (distances start reads))) }
{
    positions_in(text.strip_prefix(b" :".as_slice())?, most, start)
}

/// At most so many positions: distances from the start.
fn positions_in(text: &[u8], most: u32, start: Pos) -> Option<Reads>
    requires most { most ≤ MAX_CORES }
    requires start { start ≤ MAX_ENTRIES }
    ensures { MatchOption result
        ((reads : List ℕ) → AreUpTo most start reads → text.now ≢ spaced (distances start reads))
        (λ reads. AreUpTo most start reads × (text.now ≡ spaced (distances start reads))) }
{
    let mut reads = Reads::empty();
    let mut rest = text;
    while !rest.is_empty() {
        if reads.len() == most {
            return None;
        }
        let (distance, behind) = number_at(rest, 0, MAX_ENTRIES - start)?;
        reads.push(start + distance);
        rest = behind;
    }
    Some(reads)
}
