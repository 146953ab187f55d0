//! How `clap` is told of the commands.
//!
//! A command is a verb and the words that it wants behind it, each under a name. There are no options, no help and no
//! version: such words are no command.

ghost use Rattle.std.specs.Prelude.{◌≡◌, [], IfOk, false, map};
ghost use Rattle.clap.specs.Words.{app_of, rule_of, with_subcommand};
ghost use Rattle.clap.specs.declared.builder.command.Command.TheViews.{out-Command as fields_of};
ghost use Rattle.command_words.specs.Program.{command_of, no_commands, policy_commands, program};
ghost use Rattle.command_words.specs.Program.{trace_commands, wanted, with_all};

use clap::{Arg, ArgAction, Command};
use std::alloc::{AllocError, Global};

/// The program with its commands.
pub(crate) fn program<'a>(alloc: Global) -> Result<Command<'a>, AllocError>
    ensures { IfOk result (λ made. app_of made ≡ program) }
{
    let program = with_policies(no_commands(alloc), alloc)?;
    let program = with_traces(program, alloc)?;
    with_two(program, alloc, "make", "bench", &["SEED", "SIZE"])
}

/// The program with the commands on a policy.
fn with_policies<'a>(program: Command<'a>, alloc: Global) -> Result<Command<'a>, AllocError>
    ensures { IfOk result (λ made. app_of made ≡ with_all policy_commands (app_of program.entry)) }
{
    let program = with_three(program, alloc, "check", "prove", "bound", &["POLICY"])?;
    let program = with_three(program, alloc, "rest", "waits", "emit", &["POLICY"])?;
    let program = with_command(program, alloc, "draft", &["POLICY"])?;
    let program = with_command(program, alloc, "explain", &["POLICY", "NAME"])?;
    with_command(program, alloc, "verify", &["POLICY", "CERTS"])
}

/// The program with the commands on a policy and a trace.
fn with_traces<'a>(program: Command<'a>, alloc: Global) -> Result<Command<'a>, AllocError>
    ensures { IfOk result (λ made. app_of made ≡ with_all trace_commands (app_of program.entry)) }
{
    let program = with_two(program, alloc, "play", "run", &["POLICY", "TRACE"])?;
    let program = with_two(program, alloc, "simulate", "waste", &["POLICY", "TRACE"])?;
    let program = with_command(program, alloc, "crew", &["POLICY", "TRACE", "WORKERS"])?;
    let files = ["POLICY", "TRACE", "HISTORY"];
    let program = with_two(program, alloc, "replay", "report", &files)?;
    with_two(program, alloc, "migrate", "why", &files)
}

/// The program with no command so far.
fn no_commands<'a>(alloc: Global) -> Command<'a>
    ensures { app_of result ≡ no_commands }
{
    Command::new(alloc, "ipanema")
        .no_binary_name(true)
        .disable_help_flag(true)
        .disable_help_subcommand(true)
        .disable_version_flag(true)
        .subcommand_required(true)
}

/// The program with two more commands, which want the words of the same names.
fn with_two<'a>(
    program: Command<'a>,
    alloc: Global,
    verb: &'a str,
    other: &'a str,
    ids: &[&'a str],
) -> Result<Command<'a>, AllocError>
    ensures { IfOk result (λ made. app_of made ≡ with_subcommand
        (with_subcommand (app_of program.entry) (command_of verb.now (map (λ id. id.now) ids.now)))
        (command_of other.now (map (λ id. id.now) ids.now))) }
{
    let program = with_command(program, alloc, verb, ids)?;
    with_command(program, alloc, other, ids)
}

/// The program with three more commands, which want the words of the same names.
fn with_three<'a>(
    program: Command<'a>,
    alloc: Global,
    verb: &'a str,
    other: &'a str,
    third: &'a str,
    ids: &[&'a str],
) -> Result<Command<'a>, AllocError>
    ensures { IfOk result (λ made. app_of made ≡ with_subcommand (with_subcommand
        (with_subcommand (app_of program.entry) (command_of verb.now (map (λ id. id.now) ids.now)))
        (command_of other.now (map (λ id. id.now) ids.now)))
        (command_of third.now (map (λ id. id.now) ids.now))) }
{
    let program = with_two(program, alloc, verb, other, ids)?;
    with_command(program, alloc, third, ids)
}

/// The program with one more command, which wants the words of these names.
fn with_command<'a>(
    program: Command<'a>,
    alloc: Global,
    verb: &'a str,
    ids: &[&'a str],
) -> Result<Command<'a>, AllocError>
    ensures { IfOk result (λ made. app_of made
        ≡ with_subcommand (app_of program.entry) (command_of verb.now (map (λ id. id.now) ids.now))) }
{
    program.subcommand(command_of(alloc, verb, ids)?)
}

/// A command that wants the words of these names.
fn command_of<'a>(alloc: Global, verb: &'a str, ids: &[&'a str]) -> Result<Command<'a>, AllocError>
    ensures shape { IfOk result (λ made. app_of made
        ≡ record { top = command_of verb.now (map (λ id. id.now) ids.now); subs = [] }) }
    ensures local { IfOk result (λ made. (fields_of made).has_globals ≡ false) }
{
    let mut command = Command::new(alloc, verb);
    for id in ids {
        command = command.arg(wanted(alloc, id))?;
    }
    Ok(command)
}

/// A word that has to be there, under this name.
fn wanted<'a>(alloc: Global, id: &'a str) -> Arg<'a>
    ensures rule { rule_of result ≡ wanted id.now }
    ensures local { result.global ≡ false }
{
    Arg::new(alloc, id).required(true).action(ArgAction::Set)
}
