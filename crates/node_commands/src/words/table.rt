//! The commands and their options, as `clap` reads them.

ghost use Rattle.std.specs.Prelude.{◌≡◌, codes, [], IfOk, map, string_bytes, false};
ghost use Rattle.clap.specs.Words.{rule_of, HasMatchesOf, FailsBy, fault_of};
ghost use Rattle.node_commands.specs.Table.{argument_of, entry_of, option_rule, value_rule, word_rule, command_app, drill_app, base_app, table_of, taos_app, IsMade};

use clap::{Arg, ArgAction, ArgMatches, Command, Error};
use std::alloc::{AllocError, Global};

/// An option of a command, by its name.
#[derive(Clone, Copy)]
pub enum Argument {
    Valued(&'static str),
    /// One that has no value.
    Flag(&'static str),
}

use Argument::{Flag, Valued};

/// A command that has options.
#[derive(Clone, Copy)]
pub struct Entry {
    name: &'static str,
    options: &'static [Argument],
}

const SERVING: [Argument; 1] = [Valued("frames")];

const RUNNING: [Argument; 3] = [Valued("frames"), Valued("lemmas"), Flag("pull")];

const LANES: [Argument; 2] = [Valued("connections"), Valued("frames")];

const SERVE: [Argument; 4] = [
    Valued("connections"),
    Valued("frames"),
    Valued("lemmas"),
    Flag("pull"),
];

const MINT: [Argument; 7] = [
    Valued("issuer"),
    Valued("serial"),
    Valued("from"),
    Valued("until"),
    Valued("quoted"),
    Valued("left"),
    Valued("right"),
];

const PATH: [Argument; 2] = [Valued("node"), Valued("route")];

const COMMANDS: [Entry; 11] = [
    Entry {
        name: "run",
        options: &RUNNING,
    },
    Entry {
        name: "check",
        options: &[],
    },
    Entry {
        name: "relay",
        options: &SERVING,
    },
    Entry {
        name: "mint",
        options: &MINT,
    },
    Entry {
        name: "serve",
        options: &SERVE,
    },
    Entry {
        name: "relay-serve",
        options: &LANES,
    },
    Entry {
        name: "audit",
        options: &SERVING,
    },
    Entry {
        name: "path",
        options: &PATH,
    },
    Entry {
        name: "wallet",
        options: &SERVING,
    },
    Entry {
        name: "audit-bytes",
        options: &SERVING,
    },
    Entry {
        name: "replay",
        options: &[],
    },
];

fn valued<'a>(alloc: Global, name: &'a str) -> Arg<'a>
    ensures rule { rule_of result ≡ value_rule name.entry.now }
    ensures local { result.global ≡ false }
{
    Arg::new(alloc, name).long(name).action(ArgAction::Set)
}

fn option<'a>(alloc: Global, argument: &Argument) -> Arg<'a>
    ensures rule { rule_of result ≡ option_rule (argument_of argument.now) }
    ensures local { result.global ≡ false }
{
    match argument {
        Argument::Valued(name) => valued(alloc, name),
        Argument::Flag(name) => valued(alloc, name).num_args(0).default_missing_value(""),
    }
}

fn plain<'a>(alloc: Global, name: &'a str) -> Command<'a>
    ensures { IsMade (command_app name.entry.now []) result }
{
    Command::new(alloc, name).disable_help_flag(true)
}

fn base<'a>(alloc: Global) -> Command<'a>
    ensures { IsMade base_app result }
{
    plain(alloc, "taos")
        .disable_help_subcommand(true)
        .no_binary_name(true)
        .subcommand_required(true)
}

// A word without an option's name, by its place.
fn word<'a>(alloc: Global, name: &'a str) -> Arg<'a>
    ensures rule { rule_of result ≡ word_rule name.entry.now }
    ensures local { result.global ≡ false }
{
    Arg::new(alloc, name).action(ArgAction::Set)
}

fn command_of<'a>(
    alloc: Global,
    name: &'a str,
    options: &[Argument],
) -> Result<Command<'a>, AllocError>
    ensures { IfOk result (IsMade (command_app name.entry.now (map argument_of options.now))) }
{
    let mut command = plain(alloc, name);
    for argument in options {
        command = command.arg(option(alloc, argument))?;
    }
    Ok(command)
}

// The commands that have options.
fn table_of<'a>(alloc: Global, entries: &[Entry]) -> Result<Command<'a>, AllocError>
    ensures { IfOk result (IsMade (table_of (map entry_of entries.now))) }
{
    let mut table = base(alloc);
    for entry in entries {
        table = table.subcommand(command_of(alloc, entry.name, entry.options)?)?;
    }
    Ok(table)
}

#[tactic(auto, using(crate::proofs::Made::adds_rule))]
fn drilling<'a>(alloc: Global) -> Result<Command<'a>, AllocError>
    ensures { IfOk result (IsMade drill_app) }
{
    let seed = plain(alloc, "drill").arg(word(alloc, "seed"))?;
    let requests = seed.arg(word(alloc, "requests"))?;
    let lanes = requests.arg(word(alloc, "lanes"))?;
    Ok(lanes)
}

#[tactic(auto, using(crate::proofs::Made::adds_subcommand))]
fn commands<'a>(alloc: Global) -> Result<Command<'a>, AllocError>
    ensures { IfOk result (IsMade taos_app) }
{
    let table = table_of(alloc, &COMMANDS)?;
    let whole = table.subcommand(drilling(alloc)?)?;
    Ok(whole)
}

/// What `clap` finds in words.
#[tactic(auto, using(crate::proofs::Made::taos_is_simple, crate::proofs::Made::taos_is_free))]
pub fn matches_of<'a>(alloc: Global, words: &'a [String]) -> Result<ArgMatches<'a>, Error>
    ensures matches { IfOk result (HasMatchesOf taos_app (map string_bytes words.entry.now)) }
    ensures faults { FailsBy (fault_of taos_app (map string_bytes words.entry.now)) result }
{
    let command = commands(alloc)?;
    command.try_get_matches_from(words)
}
