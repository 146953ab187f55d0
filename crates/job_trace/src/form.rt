//! The form of a line, whatever the ranges of its numbers.

ghost use Rattle.std.specs.Prelude.{◌≡◌, ◌<◌, ◌≤◌, IfOk, IfSome, MatchOption, None, Some, length};
ghost use Rattle.sched_base.specs.declared.limits.TheConstants.{MAX_NAME_BYTES};
ghost use Rattle.job_trace.specs.Words.{words};
ghost use Rattle.job_trace.specs.Code.Steps.{const_first, consts_in, core_in, form_of, kind_of, line_in, named};
ghost use Rattle.job_trace.specs.Code.Steps.{numbers_in};
ghost use Rattle.job_trace.specs.Code.Steps.{order_in, some_of, thread_in, weighed_in, weight_first};

use crate::programs::program_in;
use crate::trace::{CoreConsts, NamedConst, NamedConstList, TraceLine};
use crate::words::{
    has_word, is_name, kept_in, kept_signed_in, next_word, number_alone, number_behind,
    number_first,
};
use policy_tree::Name;
use round_model::{CoreList, OrderLine, Planned};
use sched_base::{CoreId, ThreadId};
use std::alloc::{AllocError, Global};

/// The kinds of lines.
#[derive(Clone, Copy)]
pub(crate) enum LineKind {
    Cores,
    Rounds,
    Entries,
    Core,
    Thread,
    Order,
}

/// The line that the words are, or none.
#[tactic(auto, unfolding(crate::specs::Code::Steps::form_of))]
pub(crate) fn form_of(alloc: Global, line: &[u8]) -> Result<Option<TraceLine>, AllocError>
    requires { length line.now < u32.MAX }
    ensures { IfOk result (λ form. form ≡ form_of (words line.now)) }
{
    let Some((first, rest)) = next_word(line) else {
        return Ok(None);
    };
    match kind_of(first) {
        Some(kind) => line_in(alloc, kind, rest),
        None => Ok(None),
    }
}

/// The kind of line that begins with the word.
#[tactic(auto, unfolding(crate::specs::Code::Steps::kind_of))]
fn kind_of(word: &[u8]) -> Option<LineKind>
    ensures { result ≡ kind_of word.now }
{
    if word == b"cores".as_slice() {
        Some(LineKind::Cores)
    } else if word == b"rounds".as_slice() {
        Some(LineKind::Rounds)
    } else if word == b"entries".as_slice() {
        Some(LineKind::Entries)
    } else if word == b"core".as_slice() {
        Some(LineKind::Core)
    } else if word == b"thread".as_slice() {
        Some(LineKind::Thread)
    } else if word == b"order".as_slice() {
        Some(LineKind::Order)
    } else {
        None
    }
}

/// The line of that kind that stands behind its first word.
#[tactic(auto, unfolding(crate::specs::Code::Steps::line_in))]
fn line_in(alloc: Global, kind: LineKind, rest: &[u8]) -> Result<Option<TraceLine>, AllocError>
    requires { length rest.now < u32.MAX }
    ensures { IfOk result (λ form. form ≡ line_in kind (words rest.now)) }
{
    match kind {
        LineKind::Cores => Ok(number_alone(rest).map(TraceLine::Cores)),
        LineKind::Rounds => Ok(number_alone(rest).map(TraceLine::Rounds)),
        LineKind::Entries => Ok(number_alone(rest).map(TraceLine::Entries)),
        LineKind::Core => core_in(alloc, rest),
        LineKind::Thread => thread_in(alloc, rest),
        LineKind::Order => order_in(alloc, rest),
    }
}

#[tactic(auto, unfolding(crate::specs::Code::Steps::thread_in))]
fn thread_in(alloc: Global, line: &[u8]) -> Result<Option<TraceLine>, AllocError>
    requires { length line.now < u32.MAX }
    ensures { IfOk result (λ form. form ≡ thread_in (words line.now)) }
{
    let Some((id, rest)) = number_first(line) else {
        return Ok(None);
    };
    let Some((core, rest)) = number_behind(rest, b"core") else {
        return Ok(None);
    };
    let Some((round, rest)) = number_behind(rest, b"round") else {
        return Ok(None);
    };
    weighed_in(alloc, id, core, round, rest)
}

/// The thread with the weight and the program that stand there.
#[tactic(auto, unfolding(crate::specs::Code::Steps::weighed_in))]
fn weighed_in(
    alloc: Global,
    id: ThreadId,
    core: CoreId,
    round: u32,
    line: &[u8],
) -> Result<Option<TraceLine>, AllocError>
    requires { length line.now < u32.MAX }
    ensures { IfOk result (λ form. form ≡ weighed_in id core round (words line.now)) }
{
    let Some((weight, rest)) = weight_first(line) else {
        return Ok(None);
    };
    match program_in(alloc, rest)? {
        Some(bursts) => Ok(Some(TraceLine::Thread(Planned {
            id,
            core,
            round,
            weight,
            bursts,
        }))),
        None => Ok(None),
    }
}

/// The weight with which the line begins, 1 where it doesn't, and the line behind it.
#[tactic(auto, unfolding(crate::specs::Code::Steps::weight_first))]
fn weight_first(line: &[u8]) -> Option<(u32, &[u8])>
    ensures found { MatchOption result
        (weight_first (words line.now) ≡ None)
        (λ found. weight_first (words line.now) ≡ Some (found.0, words found.1.now)) }
    ensures few { IfSome result (λ found. length found.1.now ≤ length line.now) }
{
    match next_word(line) {
        Some((first, rest)) if first == b"weight".as_slice() => number_first(rest),
        _ => Some((1, line)),
    }
}

#[tactic(auto, unfolding(crate::specs::Code::Steps::order_in))]
fn order_in(alloc: Global, line: &[u8]) -> Result<Option<TraceLine>, AllocError>
    requires { length line.now < u32.MAX }
    ensures { IfOk result (λ form. form ≡ order_in (words line.now)) }
{
    let Some((round, rest)) = number_first(line) else {
        return Ok(None);
    };
    match some_numbers(alloc, rest)? {
        Some(cores) => Ok(Some(TraceLine::Order(OrderLine { round, cores }))),
        None => Ok(None),
    }
}

/// The numbers that the line is, one at least.
fn some_numbers(alloc: Global, line: &[u8]) -> Result<Option<CoreList>, AllocError>
    requires { length line.now < u32.MAX }
    ensures { IfOk result (λ found. found ≡ some_of (words line.now) (numbers_in (words line.now))) }
{
    if has_word(line) {
        numbers_in(alloc, line)
    } else {
        Ok(None)
    }
}

/// The numbers that the line is.
fn numbers_in(alloc: Global, line: &[u8]) -> Result<Option<CoreList>, AllocError>
    requires { length line.now < u32.MAX }
    ensures { IfOk result (λ found. found ≡ numbers_in (words line.now)) }
{
    let mut numbers = Vec::new(alloc);
    let mut rest = line;
    while let Some((word, behind)) = next_word(rest) {
        let Some(number) = kept_in(word) else {
            return Ok(None);
        };
        numbers.push(number)?;
        rest = behind;
    }
    Ok(Some(CoreList::from_vec(numbers)))
}

#[tactic(auto, unfolding(crate::specs::Code::Steps::core_in))]
fn core_in(alloc: Global, line: &[u8]) -> Result<Option<TraceLine>, AllocError>
    requires { length line.now < u32.MAX }
    ensures { IfOk result (λ form. form ≡ core_in (words line.now)) }
{
    let Some((core, rest)) = number_first(line) else {
        return Ok(None);
    };
    match some_consts(alloc, rest)? {
        Some(consts) => Ok(Some(TraceLine::Core(CoreConsts { core, consts }))),
        None => Ok(None),
    }
}

/// The constants that the line is, one at least.
fn some_consts(alloc: Global, line: &[u8]) -> Result<Option<NamedConstList>, AllocError>
    requires { length line.now < u32.MAX }
    ensures { IfOk result (λ found. found ≡ some_of (words line.now) (consts_in (words line.now))) }
{
    if has_word(line) {
        consts_in(alloc, line)
    } else {
        Ok(None)
    }
}

/// The constants that the line is.
fn consts_in(alloc: Global, line: &[u8]) -> Result<Option<NamedConstList>, AllocError>
    requires { length line.now < u32.MAX }
    ensures { IfOk result (λ found. found ≡ consts_in (words line.now)) }
{
    let mut consts = Vec::new(alloc);
    let mut rest = line;
    while let Some((name, value, behind)) = const_first(rest) {
        let given = named(alloc, name, value)?;
        consts.push(given)?;
        rest = behind;
    }
    if has_word(rest) {
        return Ok(None);
    }
    Ok(Some(NamedConstList::from_vec(consts)))
}

/// The constant of that name and value.
fn named(alloc: Global, name: &[u8], value: i32) -> Result<NamedConst, AllocError>
    requires { length name.now ≤ MAX_NAME_BYTES }
    ensures { IfOk result (λ given. given ≡ named name.now value) }
{
    let name = Name::from_vec(Vec::from_slice(alloc, name)?);
    Ok(NamedConst { name, value })
}

/// The name and the value of the constant with which the line begins, and the line behind them.
#[tactic(auto, unfolding(crate::specs::Code::Steps::const_first))]
fn const_first(line: &[u8]) -> Option<(&[u8], i32, &[u8])>
    ensures found { MatchOption result
        (const_first (words line.now) ≡ None)
        (λ found. const_first (words line.now) ≡ Some (named found.0.now found.1, words found.2.now)) }
    ensures short { IfSome result (λ found. length found.0.now ≤ MAX_NAME_BYTES) }
    ensures shorter { IfSome result (λ found. length found.2.now < length line.now) }
{
    let (name, rest) = next_word(line)?;
    let (value, rest) = next_word(rest)?;
    if !is_name(name) {
        return None;
    }
    Some((name, kept_signed_in(value)?, rest))
}
