//! The words after the program's name.

ghost use Rattle.std.specs.Prelude.{◌≡◌, ◌≤◌, IfOk, IfSome, codes, false};
ghost use Rattle.clap.specs.Words.{app_of, found_of, new_app, rule_of, rows_of, with_rule, with_subcommand};
ghost use Rattle.clap.specs.Words.{subcommand_rows_of};
ghost use Rattle.clap.specs.declared.builder.command.Command.TheViews.{out-Command};
ghost use Rattle.zx_words.specs.Command.{IsWithinLimits, command_in, numeral_in};
ghost use Rattle.zx_words.specs.CommandLine.{bare, flag_rule, word_rule, opt_app, gen_app};
ghost use Rattle.zx_words.specs.CommandLine.{zxopt_app, command_by, generation_by};
ghost use Rattle.zx_words.specs.CommandLine.{has_flag, number_at};

use clap::error::ErrorKind;
use clap::{Arg, ArgAction, ArgMatches};
use itoa::Buffer;
use std::alloc::{AllocError, Global};

/// What the program is asked to do.
#[derive(Clone, Copy, Debug, PartialEq, Eq)]
pub enum Command {
    /// To optimise the circuit that is read.
    Optimise {
        /// Whether the best of several circuits is taken, and not only the one from the graph.
        best: bool,
        /// Whether the numbers of gates are told.
        report: bool,
        /// Whether the number is told that the read circuit's linear map is times the written one's.
        scalar: bool,
    },
    /// To simplify the graph of the file that is read, along its flow.
    Reduce,
    /// To tell whether the table of the file that is read is a flow.
    Flow,
    /// To write the graph-like form of the diagram that is read.
    Graph,
    /// To find a circuit for the diagram that is read.
    Compile,
    /// To change the phases of the circuit that is read, and nothing else.
    Teleport,
    /// To tell whether the two circuits that are read have one linear map.
    Same,
    /// To make a circuit from a seed, and to optimise it.
    Generate {
        /// The seed.
        seed: u64,
        /// How many qubits, from 1 to 1,024.
        qubits: u16,
        /// How many gates, at most 1,000,000.
        gates: u32,
    },
}

/// The command that the words give, if they give one.
///
/// # Errors
///
/// Only where memory runs out.
pub fn command_in<'a>(alloc: Global, words: &'a [&'a str]) -> Result<Option<Command>, AllocError>
    ensures command { IfOk result (λ command. command ≡ command_in words.entry.now) }
    ensures limits { IfOk result IsWithinLimits }
{
    let definition = definition(alloc)?;
    match definition.try_get_matches_from(words) {
        Ok(matches) => Ok(command_by(&matches)),
        Err(error) => match error.kind() {
            ErrorKind::OutOfMemory => Err(AllocError),
            _ => Ok(None),
        },
    }
}

// The command line, as it is defined.
fn definition<'a>(alloc: Global) -> Result<clap::Command<'a>, AllocError>
    ensures { IfOk result (λ command. app_of command ≡ zxopt_app) }
{
    let opt = opt_definition(alloc)?;
    let with_opt = bare_definition(alloc).subcommand(opt)?;
    let generate = gen_definition(alloc)?;
    let with_gen = with_opt.subcommand(generate)?;
    let with_reduce = with_alone(alloc, with_gen, "reduce")?;
    let with_flow = with_alone(alloc, with_reduce, "flow")?;
    let with_graph = with_alone(alloc, with_flow, "graph")?;
    let with_compile = with_alone(alloc, with_graph, "compile")?;
    let with_teleport = with_alone(alloc, with_compile, "teleport")?;
    with_alone(alloc, with_teleport, "same")
}

// The command with one subcommand more, which has no words of its own.
fn with_alone<'a>(
    alloc: Global,
    command: clap::Command<'a>,
    name: &'a str,
) -> Result<clap::Command<'a>, AllocError>
    ensures { IfOk result (λ more. app_of more
        ≡ with_subcommand (app_of command.entry) (new_app name.entry.now).top) }
{
    command.subcommand(clap::Command::new(alloc, name))
}

// The program without its subcommands.
fn bare_definition<'a>(alloc: Global) -> clap::Command<'a>
    ensures { app_of result ≡ bare (new_app (codes "zxopt")) }
{
    clap::Command::new(alloc, "zxopt")
        .no_binary_name(true)
        .disable_help_flag(true)
        .disable_help_subcommand(true)
        .subcommand_required(true)
}

// `opt`, with its flags.
fn opt_definition<'a>(alloc: Global) -> Result<clap::Command<'a>, AllocError>
    ensures app { IfOk result (λ command. app_of command ≡ opt_app) }
    ensures local { IfOk result (λ command. (out-Command command).has_globals ≡ false) }
{
    let with_best = with_flag(alloc, clap::Command::new(alloc, "opt"), "best")?;
    let with_report = with_flag(alloc, with_best, "report")?;
    with_flag(alloc, with_report, "scalar")
}

// `gen`, with its words.
fn gen_definition<'a>(alloc: Global) -> Result<clap::Command<'a>, AllocError>
    ensures app { IfOk result (λ command. app_of command ≡ gen_app) }
    ensures local { IfOk result (λ command. (out-Command command).has_globals ≡ false) }
{
    let with_seed = with_word(alloc, clap::Command::new(alloc, "gen"), "seed")?;
    let with_qubits = with_word(alloc, with_seed, "qubits")?;
    with_word(alloc, with_qubits, "gates")
}

// The command with one flag more.
fn with_flag<'a>(
    alloc: Global,
    command: clap::Command<'a>,
    name: &'a str,
) -> Result<clap::Command<'a>, AllocError>
    ensures app { IfOk result (λ more. app_of more
        ≡ with_rule (app_of command.entry) (flag_rule name.entry.now)) }
    ensures local { (out-Command command.entry).has_globals ≡ false
        → IfOk result (λ more. (out-Command more).has_globals ≡ false) }
{
    command.arg(flag(alloc, name))
}

// The command with one word more.
fn with_word<'a>(
    alloc: Global,
    command: clap::Command<'a>,
    name: &'a str,
) -> Result<clap::Command<'a>, AllocError>
    ensures app { IfOk result (λ more. app_of more
        ≡ with_rule (app_of command.entry) (word_rule name.entry.now)) }
    ensures local { (out-Command command.entry).has_globals ≡ false
        → IfOk result (λ more. (out-Command more).has_globals ≡ false) }
{
    command.arg(word(alloc, name))
}

// A flag by its name, which may be given once.
fn flag<'a>(alloc: Global, name: &'a str) -> Arg<'a>
    ensures rule { rule_of result ≡ flag_rule name.entry.now }
    ensures local { result.global ≡ false }
{
    Arg::new(alloc, name).long(name).action(ArgAction::SetTrue)
}

// A word that has to be there.
fn word<'a>(alloc: Global, name: &'a str) -> Arg<'a>
    ensures rule { rule_of result ≡ word_rule name.entry.now }
    ensures local { result.global ≡ false }
{
    Arg::new(alloc, name).required(true)
}

// The command of a parse.
fn command_by(matches: &ArgMatches) -> Option<Command>
    ensures command { result ≡ command_by (subcommand_rows_of matches.now) }
    ensures limits { IsWithinLimits result }
{
    let (name, given) = matches.subcommand()?;
    if name == "opt" {
        return Some(Command::Optimise {
            best: has_flag(given, "best"),
            report: has_flag(given, "report"),
            scalar: has_flag(given, "scalar"),
        });
    }
    if name == "gen" {
        return generation_by(given);
    }
    if name == "reduce" {
        return Some(Command::Reduce);
    }
    if name == "flow" {
        return Some(Command::Flow);
    }
    if name == "graph" {
        return Some(Command::Graph);
    }
    if name == "compile" {
        return Some(Command::Compile);
    }
    if name == "teleport" {
        return Some(Command::Teleport);
    }
    if name == "same" {
        return Some(Command::Same);
    }
    None
}

// Whether a flag is given.
fn has_flag(given: &ArgMatches, flag: &str) -> bool
    ensures { result ≡ has_flag flag.now (rows_of (found_of given.now)) }
{
    match given.get_str(flag) {
        Some(text) => text == "true",
        None => false,
    }
}

// The command of the three words.
fn generation_by(given: &ArgMatches) -> Option<Command>
    ensures command { result ≡ generation_by (rows_of (found_of given.now)) }
    ensures limits { IsWithinLimits result }
{
    let seed = number_at(given, "seed", u64::MAX)?;
    let qubits = number_at(given, "qubits", 1024)?;
    let gates = number_at(given, "gates", 1_000_000)?;
    if qubits == 0 {
        return None;
    }
    Some(Command::Generate {
        seed,
        qubits: qubits as u16,
        gates: gates as u32,
    })
}

// A number that is given, up to the greatest one.
fn number_at(given: &ArgMatches, name: &str, most: u64) -> Option<u64>
    ensures value { result ≡ number_at name.now most (rows_of (found_of given.now)) }
    ensures small { IfSome result (λ number. number ≤ most) }
{
    numeral_in(given.get_str(name)?, most)
}

// The number that a text spells in decimal digits, without a leading zero, up to the greatest one.
fn numeral_in(text: &str, most: u64) -> Option<u64>
    ensures value { result ≡ numeral_in most text.now }
    ensures small { IfSome result (λ number. number ≤ most) }
{
    match text.parse::<u64>() {
        Ok(number) => {
            if number <= most && Buffer::new().format(number) == text {
                Some(number)
            } else {
                None
            }
        }
        Err(_) => None,
    }
}
