//! The traces that are tried: threads without end on one core.

ghost use Rattle.std.specs.Prelude.{◌≡◌, ◌+◌, ◌<◌, ◌≤◌, ◌++◌, IfOk, OnOk, length};
ghost use Rattle.policy_eval.specs.Ranges.{greatest_weight, least_weight};
ghost use Rattle.starving_plays.specs.declared.traces.TheConstants.{LINE_ROOM};
ghost use Rattle.starving_plays.specs.Traces.{numbered, third_line, thread_line, trace_text};

use itoa::Buffer;
use policy_tree::Load;
use std::alloc::{AllocError, Global};

// The most bytes of a thread's line.
const LINE_ROOM: usize = 64;

/// The weights of the threads of a tried trace.
#[derive(Clone, Copy)]
pub(crate) struct Crowd {
    pub(crate) first: u32,
    pub(crate) second: u32,
    pub(crate) third: Option<u32>,
}

/// The least and the greatest weight of a thread.
pub(crate) fn weights_of(load: Load) -> (u32, u32)
    ensures { result ≡ (least_weight load, greatest_weight load) }
{
    match load {
        Load::Count => (1, 1),
        Load::Weight { lo, hi } => (lo, hi),
    }
}

/// The text of the trace of such threads.
pub(crate) fn trace_text(alloc: Global, crowd: Crowd) -> Result<Vec<u8>, AllocError>
    ensures text { IfOk result (λ text. text.items ≡ trace_text crowd) }
    ensures short { IfOk result (λ text. length text.items < u32.MAX) }
{
    let mut text = Vec::from_slice(alloc, b"cores 1\nrounds 200\n")?;
    add_thread(&mut text, 1, crowd.first)?;
    add_thread(&mut text, 2, crowd.second)?;
    add_third(&mut text, crowd.third)?;
    Ok(text)
}

/// Adds the line of a third thread, if there is one.
fn add_third(text: &mut Vec<u8>, weight: Option<u32>) -> Result<(), AllocError>
    ensures line { OnOk result (text.new.items ≡ text.old.items ++ third_line weight) }
    ensures few { OnOk result (length text.new.items ≤ length text.old.items + LINE_ROOM) }
{
    match weight {
        Some(weight) => add_thread(text, 3, weight),
        None => Ok(()),
    }
}

/// Adds the line of a thread without end.
fn add_thread(text: &mut Vec<u8>, thread: u32, weight: u32) -> Result<(), AllocError>
    ensures line { OnOk result (text.new.items ≡ text.old.items ++ thread_line thread weight) }
    ensures few { OnOk result (length text.new.items ≤ length text.old.items + LINE_ROOM) }
{
    add_numbered(text, b"thread ", thread)?;
    add_numbered(text, b" core 0 round 1 weight ", weight)?;
    text.extend_from_slice(b" forever\n")?;
    Ok(())
}

/// Adds words and a number behind them.
pub fn add_numbered(text: &mut Vec<u8>, words: &[u8], number: u32) -> Result<(), AllocError>
    ensures words { OnOk result (text.new.items ≡ text.old.items ++ numbered words.now number) }
    ensures few { OnOk result (length text.new.items ≤ length text.old.items + (length words.now + 10)) }
{
    let mut digits = Buffer::new();
    text.extend_from_slice(words)?;
    text.extend_from_slice(digits.format(number).as_bytes())?;
    Ok(())
}
