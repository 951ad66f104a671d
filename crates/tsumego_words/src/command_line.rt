//! The command line: its grammar, and the command that the words give.
//!
//! The words are read by `clap`, whose contracts make the command a function of the words. Proving this is expensive, so each part
//! of the grammar has a function of its own, and nothing else is here.

ghost use Rattle.std.specs.Prelude.{◌≡◌, ◌≤◌, false, Some, None, codes, IfOk, IfErr, IfSome, option_and_then, map};
ghost use Rattle.clap.specs.Words.{app_of, found_of, kind_of, new_app, rows_of, rule_of, subcommand_rows_of, with_rule, with_subcommand};
ghost use Rattle.clap.specs.Simple.{new_shape};
ghost use Rattle.clap.specs.declared.builder.command.Command.TheViews.{out-Command as fields_of};
ghost use Rattle.tsumego_words.specs.CommandLine.{FitsRanges, HasFault, IsWordsFault, command_named, command_of, flag_of, grammar, is_session, lift_rule, nodes_rule, number_of, proof_rule, solve_shape, steps_rule, table_rule, turns_rule};

use clap::builder::ValueParser;
use clap::error::ErrorKind;
use clap::{Arg, ArgAction, ArgMatches, Error};
use std::alloc::{AllocError, Global};
use std::convert::AsStr;
use tsumego_version::VERSION;

/// The greatest number of turns that may be asked for.
const MAX_TURNS: u64 = 200;

/// The greatest number of states that may be asked for.
const MAX_NODES: u64 = 4_294_967_295;

/// The greatest number of steps that may be asked for.
const MAX_STEPS: u64 = 10_000_000;

/// The greatest number of table entries that may be asked for.
const MAX_ENTRIES: u64 = 1_000_000;

/// What the words ask for.
#[derive(Clone, Copy, Debug, PartialEq, Eq)]
pub enum Command {
    /// Judge the claim after a record.
    Check,
    /// Decide who wins the problem of a record within `turns` turns, if the tree has at most `nodes` states.
    Within {
        turns: u32,
        nodes: u64,
    },
    /// Judge the answer tree below a record's problem node.
    Audit,
    /// Search for a solution with at most this many steps and a table of this many entries. It is written as a tree, or as a claim,
    /// which may be made into one lemma.
    Solve {
        steps: u64,
        table: usize,
        proof: bool,
        lift: bool,
    },
    /// Serve GTP commands.
    Gtp,
}

impl Command {
    /// Whether the command serves a session, which answers each line by itself.
    pub fn is_session(self) -> bool
        ensures { result ≡ is_session self }
    {
        match self {
            Command::Check => false,
            Command::Within { .. } => false,
            Command::Audit => false,
            Command::Solve { .. } => false,
            Command::Gtp => true,
        }
    }
}

/// Why there is no command.
#[derive(Debug, Drop)]
pub enum NoCommand {
    /// The words have a fault, or ask for help or the version. This is `clap`'s text.
    Words(String),
    Memory,
}

/// The command that the words give. The first word is the program's name. There is a command exactly if `clap` finds no fault in
/// the words, unless memory is refused.
pub fn read_command<'a, S: AsStr>(alloc: Global, words: &'a [S]) -> Result<Command, NoCommand>
    ensures ok { IfOk result (λ c. command_of (map S.text words.now) ≡ Some c) }
    ensures ranges { IfOk result FitsRanges }
    ensures refused { IfErr result (λ e. IsWordsFault e
        → command_of (map S.text words.now) ≡ None) }
    ensures fault { IfErr result (λ e. IsWordsFault e → HasFault (map S.text words.now)) }
{
    let Ok(command) = program(alloc) else {
        return Err(NoCommand::Memory);
    };
    match command.try_get_matches_from(words) {
        Ok(matches) => match chosen(&matches) {
            Some(command) => Ok(command),
            // No parse without a fault comes here, as is proved of the grammar.
            None => Err(NoCommand::Words(String::new(alloc))),
        },
        Err(error) => Err(fault(alloc, &error)),
    }
}

/// What a parse that failed says.
fn fault(alloc: Global, error: &Error) -> NoCommand
    ensures { IsWordsFault result → kind_of error.now ≡ ErrorKind.OutOfMemory → ⊥ }
{
    match error.kind() {
        ErrorKind::OutOfMemory => NoCommand::Memory,
        _ => match format!(in alloc; "{error}") {
            Ok(text) => NoCommand::Words(text),
            Err(_) => NoCommand::Memory,
        },
    }
}

/// The command that a parse found.
fn chosen(matches: &ArgMatches<'_>) -> Option<Command>
    ensures value { result
        ≡ option_and_then (λ p. command_named p.0 p.1) (subcommand_rows_of matches.now) }
    ensures ranges { IfSome result FitsRanges }
{
    let (name, given) = matches.subcommand()?;
    if name == "check" {
        return Some(Command::Check);
    }
    if name == "within" {
        let turns = number(given, "K", 0, MAX_TURNS)?;
        let nodes = number(given, "nodes", 0, MAX_NODES)?;
        return Some(Command::Within {
            turns: turns as u32,
            nodes,
        });
    }
    if name == "audit" {
        return Some(Command::Audit);
    }
    if name == "solve" {
        let steps = number(given, "steps", 1, MAX_STEPS)?;
        let table = number(given, "table", 1, MAX_ENTRIES)?;
        return Some(Command::Solve {
            steps,
            table: table as usize,
            proof: flag(given, "proof"),
            lift: flag(given, "lift"),
        });
    }
    if name == "gtp" {
        return Some(Command::Gtp);
    }
    None
}

/// The number of an argument, if it is at least `least` and at most `most`.
fn number(given: &ArgMatches<'_>, id: &str, least: u64, most: u64) -> Option<u64>
    ensures value { result ≡ number_of id.now least most (rows_of (found_of given.now)) }
    ensures least { IfSome result (λ n. least ≤ n) }
    ensures most { IfSome result (λ n. n ≤ most) }
{
    match given.get_one::<u64>(id) {
        Some(number) if least <= number && number <= most => Some(number),
        _ => None,
    }
}

/// Whether a flag is on.
fn flag(given: &ArgMatches<'_>, id: &str) -> bool
    ensures { result ≡ flag_of id.now (rows_of (found_of given.now)) }
{
    // `get_flag` promises nothing about a text that is neither `true` nor `false`.
    match given.get_one::<bool>(id) {
        Some(on) => on,
        None => false,
    }
}

/// The program with its subcommands, one of which has to be named.
fn program<'a>(alloc: Global) -> Result<clap::Command<'a>, AllocError>
    ensures { IfOk result (λ c. app_of c ≡ grammar) }
{
    let program = judging(alloc)?.subcommand(solve_command(alloc)?)?;
    program.subcommand(gtp_command(alloc))
}

/// The program with the subcommands that judge: all except `solve` and `gtp`.
fn judging<'a>(alloc: Global) -> Result<clap::Command<'a>, AllocError>
    ensures { IfOk result (λ c. with_subcommand (with_subcommand (app_of c) solve_shape)
        (new_shape (codes "gtp")) ≡ grammar) }
{
    let program = clap::Command::new(alloc, "tsumego")
        .about(
            "Judges, decides and solves problems of life and death in Go, read from standard input.",
        )
        .version(VERSION)
        .subcommand_required(true);
    let program = program.subcommand(check_command(alloc))?;
    let program = program.subcommand(within_command(alloc)?)?;
    program.subcommand(audit_command(alloc))
}

fn check_command<'a>(alloc: Global) -> clap::Command<'a>
    ensures app { app_of result ≡ new_app (codes "check") }
    ensures local { (fields_of result).has_globals ≡ false }
{
    clap::Command::new(alloc, "check").about("Judges the claim that follows a record.")
}

fn within_command<'a>(alloc: Global) -> Result<clap::Command<'a>, AllocError>
    ensures app { IfOk result
        (λ c. app_of c ≡ with_rule (with_rule (new_app (codes "within")) turns_rule) nodes_rule) }
    ensures local { IfOk result (λ c. (fields_of c).has_globals ≡ false) }
{
    let within = clap::Command::new(alloc, "within").about(
        "Says who can force a win within K turns, by all legal play.",
    );
    let within = within.arg(turns_argument(alloc))?;
    within.arg(nodes_argument(alloc))
}

fn audit_command<'a>(alloc: Global) -> clap::Command<'a>
    ensures app { app_of result ≡ new_app (codes "audit") }
    ensures local { (fields_of result).has_globals ≡ false }
{
    clap::Command::new(alloc, "audit").about(
        "Judges the answer tree that stands below a record's problem node.",
    )
}

fn solve_command<'a>(alloc: Global) -> Result<clap::Command<'a>, AllocError>
    ensures app { IfOk result
        (λ c. app_of c ≡ with_rule
        (with_rule (with_rule (with_rule (new_app (codes "solve")) steps_rule) table_rule)
        proof_rule) lift_rule) }
    ensures local { IfOk result (λ c. (fields_of c).has_globals ≡ false) }
{
    let solve = clap::Command::new(alloc, "solve").about(
        "Searches for a solution, and writes it as an answer tree.",
    );
    let solve = solve.arg(steps_argument(alloc))?;
    let solve = solve.arg(table_argument(alloc))?;
    let solve = solve.arg(proof_argument(alloc))?;
    solve.arg(lift_argument(alloc))
}

fn gtp_command<'a>(alloc: Global) -> clap::Command<'a>
    ensures app { app_of result ≡ new_app (codes "gtp") }
    ensures local { (fields_of result).has_globals ≡ false }
{
    clap::Command::new(alloc, "gtp").about("Serves GTP commands, one a line.")
}

fn turns_argument<'a>(alloc: Global) -> Arg<'a>
    ensures rule { rule_of result ≡ turns_rule }
    ensures local { result.global ≡ false }
{
    Arg::new(alloc, "K")
        .help("The number of turns, 0 to 200")
        .required(true)
        .value_parser(ValueParser::unsigned(0, MAX_TURNS))
}

fn nodes_argument<'a>(alloc: Global) -> Arg<'a>
    ensures rule { rule_of result ≡ nodes_rule }
    ensures local { result.global ≡ false }
{
    Arg::new(alloc, "nodes")
        .help("The most states of the tree, 0 to 4294967295")
        .long("nodes")
        .value_name("N")
        .value_parser(ValueParser::unsigned(0, MAX_NODES))
        .default_value("1000000")
}

fn steps_argument<'a>(alloc: Global) -> Arg<'a>
    ensures rule { rule_of result ≡ steps_rule }
    ensures local { result.global ≡ false }
{
    Arg::new(alloc, "steps")
        .help("The most steps of the search, 1 to 10000000")
        .long("steps")
        .value_name("N")
        .value_parser(ValueParser::unsigned(1, MAX_STEPS))
        .default_value("1000000")
}

fn table_argument<'a>(alloc: Global) -> Arg<'a>
    ensures rule { rule_of result ≡ table_rule }
    ensures local { result.global ≡ false }
{
    Arg::new(alloc, "table")
        .help("The most entries of the table, 1 to 1000000")
        .long("table")
        .value_name("N")
        .value_parser(ValueParser::unsigned(1, MAX_ENTRIES))
        .default_value("100000")
}

fn proof_argument<'a>(alloc: Global) -> Arg<'a>
    ensures rule { rule_of result ≡ proof_rule }
    ensures local { result.global ≡ false }
{
    Arg::new(alloc, "proof")
        .help(
            "Writes the record and a claim in place of the tree, also where that is 'too large': solved, but over 90,000 turns",
        )
        .long("proof")
        .action(ArgAction::SetTrue)
}

fn lift_argument<'a>(alloc: Global) -> Arg<'a>
    ensures rule { rule_of result ≡ lift_rule }
    ensures local { result.global ≡ false }
{
    Arg::new(alloc, "lift")
        .help("With --proof, writes the claim as one lemma where it has none")
        .long("lift")
        .action(ArgAction::SetTrue)
}
