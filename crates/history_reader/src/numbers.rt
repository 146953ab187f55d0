//! Reads numbers, each behind one space and in its one spelling, with a space or nothing behind it.

ghost use Rattle.std.specs.Prelude.{MatchOption};
ghost use Rattle.sched_history.specs.Ranges.{IsCoreNumber, IsRoundNumber, IsThreadNumber};
ghost use Rattle.history_reader.specs.Code.Numbers.{BeginsWithNoNumber, BeginsWithNumber, BeginsWithThreads, IsWithin};

use sched_base::{CoreId, MAX_CORES, MAX_ROUNDS, MAX_STOLEN, MAX_THREADS, Stolen, ThreadId};
use sched_history::{FIRST_FORMAT_CORES, LineForm};
use text_forms::{exact_number_in, front};

/// The number of a round that the text begins with, and what stands behind it.
pub fn round_at(text: &[u8]) -> Option<(u32, &[u8])>
    ensures { MatchOption result
        (BeginsWithNoNumber IsRoundNumber text.now)
        (λ found. BeginsWithNumber IsRoundNumber text.now found.0 found.1.now) }
{
    number_at(text, 1, MAX_ROUNDS)
}

/// The number of a thread that the text begins with, and what stands behind it.
pub fn thread_at(text: &[u8]) -> Option<(ThreadId, &[u8])>
    ensures { MatchOption result
        (BeginsWithNoNumber IsThreadNumber text.now)
        (λ found. BeginsWithNumber IsThreadNumber text.now found.0 found.1.now) }
{
    number_at(text, 1, MAX_THREADS)
}

/// The threads that the text begins with, as many as there are and one steal may move, and what stands behind them.
pub fn threads_at(text: &[u8]) -> (Stolen, &[u8])
    ensures { BeginsWithThreads text.now result.0 result.1.now }
{
    let mut threads = Stolen::empty();
    let mut rest = text;
    for _thread in 0..MAX_STOLEN {
        let Some((thread, behind)) = thread_at(rest) else {
            return (threads, rest);
        };
        threads.push(thread);
        rest = behind;
    }
    (threads, rest)
}

/// The number of a core that the text begins with, and what stands behind it.
pub fn core_at(text: &[u8], form: LineForm) -> Option<(CoreId, &[u8])>
    ensures { MatchOption result
        (BeginsWithNoNumber (IsCoreNumber form) text.now)
        (λ found. BeginsWithNumber (IsCoreNumber form) text.now found.0 found.1.now) }
{
    match form {
        LineForm::First => number_at(text, 0, FIRST_FORMAT_CORES as u32 - 1),
        LineForm::Second { .. } => number_at(text, 0, MAX_CORES as u32 - 1),
    }
}

/// The number between these two that the text begins with, and what stands behind it.
pub fn number_at(text: &[u8], least: u32, most: u32) -> Option<(u32, &[u8])>
    ensures { MatchOption result
        (BeginsWithNoNumber (IsWithin least most) text.now)
        (λ found. BeginsWithNumber (IsWithin least most) text.now found.0 found.1.now) }
{
    let words = text.strip_prefix(b" ".as_slice())?;
    let (word, behind) = front(words, b' ');
    let number = exact_number_in(word, u64::from(most))? as u32;
    if number < least {
        return None;
    }
    Some((number, behind))
}
