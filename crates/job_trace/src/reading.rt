//! Reads a text line by line.

ghost use Rattle.std.specs.Prelude.{◌≡◌, ◌+◌, ◌<◌, ◌≤◌, ◌++◌, [], Ok, Err, IfOk, IfErr, MatchResult, OnOk, length};
ghost use Rattle.std.specs.Prelude.{vec_len};
ghost use Rattle.text_forms.specs.Lines.{lines_of};
ghost use Rattle.job_trace.specs.declared.fault.TraceFault.{TraceFault};
ghost use Rattle.job_trace.specs.declared.trace.Numbered.{Numbered};
ghost use Rattle.job_trace.specs.Words.{words};
ghost use Rattle.job_trace.specs.Faults.{FailsAs, IsBroken, IsFault, IsUnlessMemory, MustGive, MustRefuse};
ghost use Rattle.job_trace.specs.Rules.{all_gifts, gifts_of};
ghost use Rattle.job_trace.specs.Code.Steps.{added, judged, scan};
ghost use Rattle.job_trace.specs.TraceText.{SpellsTrace};

use crate::fault::TraceFault;
use crate::form::form_of;
use crate::given::Given;
use crate::ranges::limit;
use crate::rules::{cores_of, may_stand};
use crate::trace::{Numbered, Trace, TraceLine};
use crate::words::is_skipped;
use lists::Items;
use std::alloc::Global;
use text_forms::first_line;

/// The trace that a text spells, or the first fault of the text.
pub fn read_trace(alloc: Global, text: &[u8]) -> Result<Trace, TraceFault>
    requires { length text.now < u32.MAX }
    ensures trace { IfOk result (SpellsTrace text.now) }
    ensures fault { IfErr result (IsFault text.now) }

    // A text that spells a trace isn't refused, and one with a fault is refused for the first one.
    ensures reads { MustGive (SpellsTrace text.now) result }
    ensures refuses { MustRefuse (IsBroken text.now) result }
{
    read(alloc, text)
}

fn read(alloc: Global, text: &[u8]) -> Result<Trace, TraceFault>
    requires { length text.now < u32.MAX }
    ensures { IsUnlessMemory (scan [] 1 (lines_of text.now)) result }
{
    let mut lines = Vec::new(alloc);
    let mut given = Given::new(alloc);
    let mut number = 1;
    let mut rest = text;
    while let Some((line, behind)) = first_line(rest) {
        add_line(alloc, &mut lines, &mut given, number, line)?;
        number += 1;
        rest = behind;
    }
    if lines.len() < 2 {
        return Err(TraceFault::BadLine(number));
    }
    Ok(Trace::from_lines(Items::from_vec(lines)))
}

/// Adds what the line says, if it says anything, and what it gives.
#[tactic(auto, unfolding(crate::specs::Code::Steps::added))]
fn add_line(
    alloc: Global,
    lines: &mut Vec<Numbered>,
    given: &mut Given,
    number: u32,
    line: &[u8],
) -> Result<(), TraceFault>
    requires short { length line.now < u32.MAX }
    requires given { given.old ≡ all_gifts lines.old.items }
    ensures adds { MatchResult result
        (λ _. added lines.old.items number (words line.now) ≡ Ok lines.new.items)
        (FailsAs (added lines.old.items number (words line.now))) }
    ensures gives { OnOk result (given.new ≡ all_gifts lines.new.items) }
    ensures few { vec_len lines.new ≤ vec_len lines.old + 1 }
{
    if is_skipped(line) {
        return Ok(());
    }
    let line = judge(alloc, lines.as_slice(), given, number, line)?;
    lines.push(Numbered { number, line })?;
    Ok(())
}

/// What the line says behind those, and adds what it gives.
#[tactic(auto, unfolding(crate::specs::Code::Steps::judged))]
fn judge(
    alloc: Global,
    before: &[Numbered],
    given: &mut Given,
    number: u32,
    line: &[u8],
) -> Result<TraceLine, TraceFault>
    requires short { length line.now < u32.MAX }
    requires given { given.old ≡ all_gifts before.now }
    ensures judged { IsUnlessMemory (judged before.now number (words line.now)) result }
    ensures gives { IfOk result (λ line. given.new ≡ given.old ++ gifts_of line) }
{
    let Some(line) = form_of(alloc, line)? else {
        return Err(TraceFault::BadLine(number));
    };
    if !may_stand(before, &line) {
        return Err(TraceFault::BadLine(number));
    }
    if let Some(end) = limit(&line, cores_of(before)) {
        return Err(TraceFault::Limit(number, end));
    }
    if given.take(alloc, &line)? {
        return Err(TraceFault::Twice(number));
    }
    Ok(line)
}
