//! Makes a trace from a seed.

ghost use Rattle.std.specs.Prelude.{◌≡◌, ◌≤◌, ◌++◌, [], ◌∷◌, IfOk, OnOk};
ghost use Rattle.sched_base.specs.declared.limits.TheConstants.{MAX_THREADS};
ghost use Rattle.job_trace.specs.Forms.{burst};
ghost use Rattle.job_trace.specs.TraceText.{numbered};
ghost use Rattle.trace_maker.specs.Made.{IsMadeUnlessMemory, header, made, made_bursts, thread_line};

use crate::fault::MakeFault;
use crate::generator::{drawn, next_state};
use job_trace::{Numbered, Trace, TraceLine};
use lists::Items;
use round_model::{Burst, BurstList, Ending, Planned};
use sched_base::{MAX_ENTRIES, MAX_THREADS, ThreadId};
use std::alloc::{AllocError, Global};

/// The cores of a made trace: fewer than there can be.
const MADE_CORES: u32 = 32;

/// The rounds of a made trace.
const MADE_ROUNDS: u32 = 60;

/// The made trace of so many threads, which the seed determines.
pub fn make_trace(alloc: Global, seed: u64, size: u32) -> Result<Trace, MakeFault>
    ensures { IsMadeUnlessMemory (made seed size) result }
{
    if size == 0 || size > MAX_THREADS {
        return Err(MakeFault::Size);
    }
    let mut lines = header(alloc)?;
    let mut state = seed;
    for done in 0..size {
        state = next_state(state);
        lines.push(thread_line(alloc, done + 1, drawn(state))?)?;
    }
    Ok(Trace::from_lines(Items::from_vec(lines)))
}

/// The lines that come before the threads.
fn header(alloc: Global) -> Result<Vec<Numbered>, AllocError>
    ensures { IfOk result (λ lines. lines.items ≡ header) }
{
    let mut lines = Vec::new(alloc);
    add(&mut lines, 1, TraceLine::Cores(MADE_CORES))?;
    add(&mut lines, 2, TraceLine::Rounds(MADE_ROUNDS))?;
    add(&mut lines, 3, TraceLine::Entries(MAX_ENTRIES))?;
    Ok(lines)
}

/// Adds the line of that number.
fn add(lines: &mut Vec<Numbered>, number: u32, line: TraceLine) -> Result<(), AllocError>
    ensures { OnOk result (lines.new.items ≡ lines.old.items ++ numbered number line ∷ []) }
{
    lines
        .push(Numbered { number, line })
        .map_err(|_| AllocError)
}

/// The line of the thread of that number, made of what was drawn.
fn thread_line(alloc: Global, id: ThreadId, draw: u64) -> Result<Numbered, AllocError>
    requires { id ≤ MAX_THREADS }
    ensures { IfOk result (λ line. line ≡ thread_line id draw) }
{
    let thread = Planned {
        id,
        core: (draw % 4) as u32,
        round: 1 + (draw / 4 % 8) as u32,
        weight: 1 + (draw / 32 % 8) as u32,
        bursts: bursts(alloc, draw)?,
    };
    Ok(Numbered {
        number: id + 3,
        line: TraceLine::Thread(thread),
    })
}

/// The bursts of a thread that is made of what was drawn.
fn bursts(alloc: Global, draw: u64) -> Result<BurstList, AllocError>
    ensures { IfOk result (λ bursts. bursts ≡ made_bursts draw) }
{
    let units = 1 + (draw / 256 % 16) as u32;
    let rounds = 1 + (draw / 16384 % 8) as u32;
    let last = burst(units, Ending::End);
    let bursts = match draw / 4096 % 4 {
        0 => Vec::from_slice(alloc, &[burst(1, Ending::Forever)])?,
        1 => Vec::from_slice(alloc, &[last])?,
        2 => Vec::from_slice(alloc, &[burst(units, Ending::Block(rounds)), last])?,
        _ => Vec::from_slice(alloc, &[burst(units, Ending::Yield), last])?,
    };
    Ok(BurstList::from_vec(bursts))
}

fn burst(units: u32, ending: Ending) -> Burst
    ensures { result ≡ burst units ending }
{
    Burst { units, ending }
}
