//! The program of a thread's line.

ghost use Rattle.std.specs.Prelude.{◌≡◌, ◌<◌, IfOk, IfSome, MatchOption, None, Some, length};
ghost use Rattle.job_trace.specs.Words.{words};
ghost use Rattle.job_trace.specs.Code.Steps.{last_in, middle_first, middle_of, program_in};

use crate::words::{behind, has_word, next_word, number_alone, number_behind, number_first};
use round_model::{Burst, BurstList, Ending};
use std::alloc::{AllocError, Global};

/// The program that the line is, or none.
pub(crate) fn program_in(alloc: Global, line: &[u8]) -> Result<Option<BurstList>, AllocError>
    requires { length line.now < u32.MAX }
    ensures { IfOk result (λ found. found ≡ program_in (words line.now)) }
{
    let mut bursts = Vec::new(alloc);
    let mut rest = line;
    while let Some((burst, behind)) = middle_first(rest) {
        bursts.push(burst)?;
        rest = behind;
    }
    match last_in(rest) {
        Some(burst) => {
            bursts.push(burst)?;
            Ok(Some(BurstList::from_vec(bursts)))
        }
        None => Ok(None),
    }
}

/// The burst with which the line begins, if another must follow, and the line behind it.
#[tactic(auto, unfolding(crate::specs::Code::Steps::middle_first))]
fn middle_first(line: &[u8]) -> Option<(Burst, &[u8])>
    ensures found { MatchOption result
        (middle_first (words line.now) ≡ None)
        (λ found. middle_first (words line.now) ≡ Some (found.0, words found.1.now)) }
    ensures shorter { IfSome result (λ found. length found.1.now < length line.now) }
{
    let (units, rest) = number_behind(line, b"run")?;
    middle_of(units, rest)
}

/// The burst of so many units that the line behind them ends, if another burst must follow.
#[tactic(auto, unfolding(crate::specs::Code::Steps::middle_of))]
fn middle_of(units: u32, line: &[u8]) -> Option<(Burst, &[u8])>
    ensures found { MatchOption result
        (middle_of units (words line.now) ≡ None)
        (λ found. middle_of units (words line.now) ≡ Some (found.0, words found.1.now)) }
    ensures shorter { IfSome result (λ found. length found.1.now < length line.now) }
{
    let (word, rest) = next_word(line)?;
    if word == b"yield".as_slice() {
        let ending = Ending::Yield;
        return Some((Burst { units, ending }, rest));
    }
    if word != b"block".as_slice() {
        return None;
    }
    let (rounds, rest) = number_first(rest)?;
    let ending = Ending::Block(rounds);
    Some((Burst { units, ending }, rest))
}

/// The burst that the line is, if none may follow it.
#[tactic(auto, unfolding(crate::specs::Code::Steps::last_in))]
fn last_in(line: &[u8]) -> Option<Burst>
    ensures { result ≡ last_in (words line.now) }
{
    if let Some(rest) = behind(line, b"forever") {
        let ending = Ending::Forever;
        return if has_word(rest) {
            None
        } else {
            Some(Burst { units: 1, ending })
        };
    }
    let units = number_alone(behind(line, b"run")?)?;
    let ending = Ending::End;
    Some(Burst { units, ending })
}
