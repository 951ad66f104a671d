//! The command line, read by `clap`.

use clap::builder::ValueParser;
use clap::{Arg, ArgAction, ArgMatches};
use run_parts::MAX_STEPS;
use std::alloc::{AllocError, Global};
use std::convert::AsStr;
use tool_parts::{NoRequest, no_request};
use tsumego_version::VERSION;

/// What the words ask for.
#[derive(Clone, Copy, Debug, PartialEq, Eq)]
pub(crate) enum Request {
    /// Judge the short claim, or the claim by answers, after a record.
    Check,
    /// Search for a short claim with at most this many steps; or for a claim by answers, of the whole board.
    Prove { steps: u64, is_whole: bool },
    /// Search as for `Prove`, and write a record for readers.
    Tree { steps: u64 },
}

/// What the words ask for. The first word is the program's name.
pub(crate) fn read_request<'a, S: AsStr>(
    alloc: Global,
    words: &'a [S],
) -> Result<Request, NoRequest> {
    let program = program(alloc)?;
    match program.try_get_matches_from(words) {
        Ok(matches) => Ok(chosen(&matches)),
        Err(error) => Err(no_request(alloc, &error)),
    }
}

/// What a parse found.
fn chosen(matches: &ArgMatches<'_>) -> Request {
    match matches.subcommand() {
        Some((name, given)) if name == "prove" => Request::Prove {
            steps: steps(given),
            is_whole: given.get_flag("whole"),
        },
        Some((name, given)) if name == "tree" => Request::Tree {
            steps: steps(given),
        },
        _ => Request::Check,
    }
}

fn steps(given: &ArgMatches<'_>) -> u64 {
    given.get_one::<u64>("steps").unwrap_or(1)
}

fn program<'a>(alloc: Global) -> Result<clap::Command<'a>, AllocError> {
    let program = clap::Command::new(alloc, "short_claims")
        .about(
            "Finds and judges short claims, in which a group that lives by its shape is not played out.",
        )
        .version(VERSION)
        .subcommand_required(true);
    let program = program.subcommand(check_command(alloc))?;
    let program = with_command(program, prove_command(alloc))?;
    with_command(program, tree_command(alloc))
}

/// The program with one more command.
fn with_command<'a>(
    program: clap::Command<'a>,
    command: Result<clap::Command<'a>, AllocError>,
) -> Result<clap::Command<'a>, AllocError> {
    program.subcommand(command?)
}

fn check_command<'a>(alloc: Global) -> clap::Command<'a> {
    clap::Command::new(alloc, "check").about(
        "Judges the short claim, or the claim by answers, after a record.",
    )
}

fn prove_command<'a>(alloc: Global) -> Result<clap::Command<'a>, AllocError> {
    clap::Command::new(alloc, "prove")
        .about("Searches for a short claim, and writes the record and the claim.")
        .arg(steps_argument(alloc))?
        .arg(whole_argument(alloc))
}

fn whole_argument<'a>(alloc: Global) -> Arg<'a> {
    Arg::new(alloc, "whole")
        .help("Searches for a claim by answers, which holds whatever stands outside")
        .long("whole")
        .action(ArgAction::SetTrue)
}

fn tree_command<'a>(alloc: Global) -> Result<clap::Command<'a>, AllocError> {
    clap::Command::new(alloc, "tree")
        .about("Searches for a short claim, and writes a record for readers.")
        .arg(steps_argument(alloc))
}

fn steps_argument<'a>(alloc: Global) -> Arg<'a> {
    Arg::new(alloc, "steps")
        .help("The most steps of the search, 1 to 10000000")
        .long("steps")
        .value_name("N")
        .value_parser(ValueParser::unsigned(1, MAX_STEPS))
        .default_value("100000")
}
