//! The words of a call, and what they ask for.

ghost use Rattle.std.specs.Prelude.{◌≡◌, ◌<◌, IfOk, IsOk, false, length, option_map};
ghost use Rattle.std.specs.List.{list_all};
ghost use Rattle.clap.specs.Words.{found_of, rows_of, subcommand_rows_of};
ghost use Rattle.command_words.specs.Asks.{asked};
ghost use Rattle.command_words.specs.Command.{asked_by, benched_by, crewed_by, explain, is_plain, made_by};
ghost use Rattle.command_words.specs.Command.{name_of, words_of};
ghost use Rattle.command_words.specs.Program.{asked_from, asked_in};

use crate::memory::WordsMemory;
use crate::numbers::{seed_in, size_in, workers_in};
use crate::words::{MAX_WORDS, are_plain, found_in, word_in};
use clap::ArgMatches;
use obligations::{ObName, ob_name};
use std::alloc::Global;

/// The names of the files of a command that judges a history.
#[derive(Clone, Copy)]
pub struct HistoryFiles<'a> {
    pub policy: &'a str,
    pub trace: &'a str,
    pub history: &'a str,
}

/// What the words of a call ask for.
#[derive(Clone, Copy)]
pub enum Request<'a> {
    /// To check the policy in this file.
    Check {
        policy: &'a str,
    },
    /// To explain the obligation of that name of the policy in this file.
    Explain {
        policy: &'a str,
        name: ObName,
    },
    /// To write the certificates of the policy in this file.
    Prove {
        policy: &'a str,
    },
    /// To tell what bounds the bad rounds of a still stretch under the policy in this file.
    Bound {
        policy: &'a str,
    },
    /// To tell how far the loads of cores may differ of which none can steal from another, under the policy in this
    /// file.
    Rest {
        policy: &'a str,
    },
    /// To tell how long threads wait under the policy in this file.
    Waits {
        policy: &'a str,
    },
    /// To write the rules of the policy in this file as a header in C.
    Emit {
        policy: &'a str,
    },
    /// To write them too where only its handlers need be right, as a draft where it isn't accepted.
    Draft {
        policy: &'a str,
    },
    /// To verify by the certificates in the second file that the policy in the first meets its obligations.
    Verify {
        policy: &'a str,
        certs: &'a str,
    },
    /// To play the trace in one file under the policy in the other.
    Play {
        policy: &'a str,
        trace: &'a str,
    },
    /// To play it by all cores side by side, each in a thread of its own.
    Run {
        policy: &'a str,
        trace: &'a str,
    },
    /// To play it by a crew of so many workers, from 1 to `MAX_WORKERS`.
    Crew {
        policy: &'a str,
        trace: &'a str,
        workers: u32,
    },
    /// To play it serially, under a policy of which only the handlers need be right.
    Simulate {
        policy: &'a str,
        trace: &'a str,
    },
    /// To report what that history wasted.
    Waste {
        policy: &'a str,
        trace: &'a str,
    },
    /// To judge a history by a policy and a trace.
    Replay(HistoryFiles<'a>),
    /// To report of a history under a policy and a trace.
    Report(HistoryFiles<'a>),
    /// To write a history of the first format in the second, under a policy and a trace.
    Migrate(HistoryFiles<'a>),
    /// To say why a history isn't whole under a policy and a trace, and what may come in it.
    Why(HistoryFiles<'a>),
    /// To make the trace of so many threads that the seed determines.
    Make {
        seed: u64,
        size: u32,
    },
    /// To play that trace under the policy `fair`, and to tell what its history comes to.
    Bench {
        seed: u64,
        size: u32,
    },
    /// Nothing: they are no command.
    Unknown,
}

/// What the words ask for.
///
/// An `Err` is want of memory. None is taken where a word is empty or an option, and where there are too many words.
pub fn request_of(alloc: Global, words: &[String]) -> Result<Request<'_>, WordsMemory>
    ensures asks { IfOk result (λ request. asked request ≡ asked_by (words_of words.now)) }
    ensures options { list_all is_plain (words_of words.now) ≡ false → IsOk result }
    ensures many { MAX_WORDS < length words.now → IsOk result }
{
    // `clap` takes some words that aren't plain for itself, and what it finds is told for so few words alone.
    if words.len() > MAX_WORDS || !are_plain(words) {
        return Ok(Request::Unknown);
    }
    match found_in(alloc, words)? {
        Some(matches) => Ok(request_from(&matches)),
        None => Ok(Request::Unknown),
    }
}

/// What is asked for by the words that were found.
fn request_from<'a>(matches: &ArgMatches<'a>) -> Request<'a>
    ensures { asked result ≡ asked_from (subcommand_rows_of matches.now) }
{
    match matches.subcommand() {
        Some((verb, words)) => request_in(verb, words),
        None => Request::Unknown,
    }
}

/// What the verb asks for, with the words that were found behind it.
fn request_in<'a>(verb: &str, words: &ArgMatches<'a>) -> Request<'a>
    ensures { asked result ≡ asked_in verb.now (rows_of (found_of words.now)) }
{
    let policy = word_in(words, "POLICY");
    let trace = word_in(words, "TRACE");
    let files = HistoryFiles {
        policy,
        trace,
        history: word_in(words, "HISTORY"),
    };
    match verb {
        "check" => Request::Check { policy },
        "prove" => Request::Prove { policy },
        "bound" => Request::Bound { policy },
        "rest" => Request::Rest { policy },
        "waits" => Request::Waits { policy },
        "emit" => Request::Emit { policy },
        "draft" => Request::Draft { policy },
        "explain" => explanation_of(policy, word_in(words, "NAME")),
        "verify" => Request::Verify {
            policy,
            certs: word_in(words, "CERTS"),
        },
        "play" => Request::Play { policy, trace },
        "run" => Request::Run { policy, trace },
        "simulate" => Request::Simulate { policy, trace },
        "waste" => Request::Waste { policy, trace },
        "crew" => crewed_by(policy, trace, word_in(words, "WORKERS")),
        "replay" => Request::Replay(files),
        "report" => Request::Report(files),
        "migrate" => Request::Migrate(files),
        "why" => Request::Why(files),
        "make" => made_by(word_in(words, "SEED"), word_in(words, "SIZE")),
        "bench" => benched_by(word_in(words, "SEED"), word_in(words, "SIZE")),
        _ => Request::Unknown,
    }
}

/// What the words `explain`, this policy and this name ask for.
fn explanation_of<'a>(policy: &'a str, name: &str) -> Request<'a>
    ensures { asked result ≡ option_map (explain policy.now) (name_of name.now) }
{
    match ob_name(name) {
        Some(name) => Request::Explain { policy, name },
        None => Request::Unknown,
    }
}

/// What the word `crew`, this policy, this trace and a number of workers ask for.
fn crewed_by<'a>(policy: &'a str, trace: &'a str, workers: &str) -> Request<'a>
    ensures { asked result ≡ crewed_by policy.now trace.now workers.now }
{
    match workers_in(workers) {
        Some(workers) => Request::Crew {
            policy,
            trace,
            workers,
        },
        None => Request::Unknown,
    }
}

/// What the word `make`, a seed and a number of threads ask for.
fn made_by<'a>(seed: &str, size: &str) -> Request<'a>
    ensures { asked result ≡ made_by seed.now size.now }
{
    match (seed_in(seed), size_in(size)) {
        (Some(seed), Some(size)) => Request::Make { seed, size },
        _ => Request::Unknown,
    }
}

/// What the word `bench`, a seed and a number of threads ask for.
fn benched_by<'a>(seed: &str, size: &str) -> Request<'a>
    ensures { asked result ≡ benched_by seed.now size.now }
{
    match (seed_in(seed), size_in(size)) {
        (Some(seed), Some(size)) => Request::Bench { seed, size },
        _ => Request::Unknown,
    }
}
