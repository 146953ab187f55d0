//! The words of a call, and what `clap` finds in them.

ghost use Rattle.std.specs.Prelude.{◌≡◌, ◌↔◌, ◌≤◌, IfOk, IsErr, None, length, option_and_then, true};
ghost use Rattle.std.specs.List.{list_all};
ghost use Rattle.clap.specs.Words.{found_of, rows_of, subcommand_rows_of};
ghost use Rattle.command_words.specs.Command.{asked_by, is_plain, words_of};
ghost use Rattle.command_words.specs.Program.{asked_from, word_in};

use crate::commands::program;
use crate::memory::WordsMemory;
use clap::ArgMatches;
use clap::error::ErrorKind;
use std::alloc::Global;

/// The most words of a command, its verb among them.
pub const MAX_WORDS: usize = 4;

/// What `clap` finds in the words, and nothing where they are no command.
pub(crate) fn found_in<'a>(
    alloc: Global,
    words: &'a [String],
) -> Result<Option<ArgMatches<'a>>, WordsMemory>
    requires few { length words.now ≤ MAX_WORDS }
    requires plain { list_all is_plain (words_of words.now) ≡ true }
    ensures { IfOk result (λ found. option_and_then (λ matches. asked_from (subcommand_rows_of matches)) found
        ≡ asked_by (words_of words.now)) }
{
    match program(alloc)?.try_get_matches_from(words) {
        Ok(matches) => Ok(Some(matches)),
        Err(error) => none_found(error.kind()),
    }
}

/// Nothing is found, unless memory was wanting. Whatever else `clap` says, the words are no command.
fn none_found<'a>(kind: ErrorKind) -> Result<Option<ArgMatches<'a>>, WordsMemory>
    ensures none { IfOk result (λ found. found ≡ None) }
    ensures memory { IsErr result ↔ (kind ≡ ErrorKind.OutOfMemory) }
{
    match kind {
        ErrorKind::OutOfMemory => Err(WordsMemory::Memory),
        _ => Ok(None),
    }
}

/// The word that was found under this name, and an empty one where there is none.
pub(crate) fn word_in<'a>(matches: &ArgMatches<'a>, id: &str) -> &'a str
    ensures { result.now ≡ word_in (rows_of (found_of matches.now)) id.now }
{
    match matches.get_str(id) {
        Some(word) => word,
        None => "",
    }
}

/// Whether each word may be one of a command.
pub(crate) fn are_plain(words: &[String]) -> bool
    ensures { result ≡ list_all is_plain (words_of words.now) }
{
    words.iter().all(|word| is_plain(word.as_str()))
}

/// Whether the word may be one of a command: it isn't empty and doesn't begin as an option.
fn is_plain(word: &str) -> bool
    ensures { result ≡ is_plain word.now }
{
    match word.as_bytes() {
        [first, ..] => *first != b'-',
        [] => false,
    }
}
