//! Reads histories.

ghost use Rattle.std.specs.Prelude.{◌≤◌, IfErr, IfOk, MatchOption};
ghost use Rattle.history_reader.specs.Answers.{IsFaultOf, MustGive, MustRefuse};
ghost use Rattle.history_reader.specs.Code.Faults.{IsFaultIn};
ghost use Rattle.history_reader.specs.Code.Kinds.{IsFirstForm};
ghost use Rattle.history_reader.specs.Reading.{HasHeader, HasNoHeader, SpellsHistory, SpellsLines};

use crate::fault::HistoryFault;
use crate::line::entry_at;
use lists::Items;
use round_model::History;
use sched_base::{MAX_CORES, MAX_ENTRIES};
use sched_history::{LineForm, print_header};
use sched_io::Line;
use std::alloc::Global;

/// The history that the text spells, or its first bad line. A text whose first word is `history` is of the second
/// format, of a machine of so many cores, any other of the first. The empty text is the empty history.
pub fn read_history(alloc: Global, text: &[u8], cores: u32) -> Result<History, HistoryFault>
    ensures history { IfOk result (λ history. SpellsHistory cores text.now history) }
    ensures fault { IfErr result (IsFaultOf cores text.now) }

    // A text that spells a history isn't refused, and one with a bad line is.
    ensures reads { MustGive cores text.now result }
    ensures refuses { MustRefuse cores text.now result }
{
    read_text(alloc, text, cores)
}

/// The history that the text spells, or its first bad line.
fn read_text(alloc: Global, text: &[u8], cores: u32) -> Result<History, HistoryFault>
    ensures history { IfOk result (λ history. SpellsHistory cores text.now history) }
    ensures fault { IfErr result (IsFaultOf cores text.now) }
{
    match behind_header(text, cores) {
        Some(lines) => read_lines(alloc, lines, LineForm::Second { cores, start: 0 }, 1),
        None => read_lines(alloc, text, LineForm::First, 0),
    }
}

/// The lines behind the header for so many cores, where the text begins with it.
fn behind_header(text: &[u8], cores: u32) -> Option<&[u8]>
    ensures { MatchOption result
        (HasNoHeader cores text.now)
        (λ lines. HasHeader cores text.now lines.now) }
{
    if cores == 0 || cores > MAX_CORES as u32 {
        return None;
    }
    let mut line = Line::new();
    print_header(&mut line, cores);
    text.strip_prefix(line.as_bytes())
}

/// The history whose lines these are, where the first is spelled so, or the first bad one. So many lines stand before
/// them.
fn read_lines(
    alloc: Global,
    lines: &[u8],
    first: LineForm,
    before: u32,
) -> Result<History, HistoryFault>
    requires form { IsFirstForm first }
    requires before { before ≤ 1 }
    ensures history { IfOk result (λ history. SpellsLines first lines.now history) }
    ensures fault { IfErr result (IsFaultIn before first lines.now) }
{
    let mut entries = Vec::new(alloc);
    let mut count = 0;
    let mut form = first;
    let mut rest = lines;
    while !rest.is_empty() {
        if count == MAX_ENTRIES {
            return Err(HistoryFault::BadLine(before + count + 1));
        }
        let (entry, behind) = match entry_at(rest, form) {
            Some(found) => found,
            None => return Err(HistoryFault::BadLine(before + count + 1)),
        };
        entries.push(entry)?;
        count += 1;
        form = form.behind(&entry, count);
        rest = behind;
    }
    Ok(Items::from_vec(entries))
}
