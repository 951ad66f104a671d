//! The command line, read by `clap`.

use clap::builder::ValueParser;
use clap::{Arg, ArgAction, ArgMatches};
use run_parts::MAX_STEPS;
use std::alloc::{AllocError, Global};
use std::convert::AsStr;
use tool_parts::{NoRequest, no_request};
use tsumego_version::VERSION;

/// The greatest number of turns of a line that may be asked for.
const MAX_DEPTH: u64 = 50;

/// The form in which the answer is written.
#[derive(Clone, Copy, Debug, PartialEq, Eq)]
pub enum Form {
    /// One SGF record with a branch for each turn.
    Record,
    /// A line for each turn.
    List,
    /// The lines as JSON, with one object on each line.
    Json,
    /// The same, with an object for each trap, and one for the winner and the grade.
    Graded,
}

/// What the words ask for.
#[derive(Clone, Copy, Debug, PartialEq, Eq)]
pub struct Request {
    /// The greatest number of steps of the search after each turn.
    pub steps: u64,
    pub form: Form,
    /// How many of the mover's turns on the line are judged; with 1 it is the first turns alone.
    pub depth: u64,
    /// Whether points are named as at the edge of the board.
    pub coordinates: bool,
    /// Whether each turn is reported on standard error when it has been judged.
    pub progress: bool,
}

/// What the words ask for. The first word is the program's name.
pub fn read_request<'a, S: AsStr>(alloc: Global, words: &'a [S]) -> Result<Request, NoRequest> {
    let program = program(alloc)?;
    match program.try_get_matches_from(words) {
        Ok(matches) => Ok(chosen(&matches)),
        Err(error) => Err(no_request(alloc, &error)),
    }
}

/// What a parse found.
fn chosen(given: &ArgMatches<'_>) -> Request {
    Request {
        steps: given.get_one::<u64>("steps").unwrap_or(1),
        form: chosen_form(given),
        depth: given.get_one::<u64>("depth").unwrap_or(1),
        coordinates: given.get_one::<bool>("coordinates").unwrap_or(false),
        progress: given.get_one::<bool>("progress").unwrap_or(false),
    }
}

/// The form that is asked for; JSON if both others are named, and where a grade is asked for.
fn chosen_form(given: &ArgMatches<'_>) -> Form {
    if given.get_one::<bool>("grade").unwrap_or(false) {
        return Form::Graded;
    }
    if given.get_one::<bool>("json").unwrap_or(false) {
        return Form::Json;
    }
    if given.get_one::<bool>("list").unwrap_or(false) {
        return Form::List;
    }
    Form::Record
}

fn program<'a>(alloc: Global) -> Result<clap::Command<'a>, AllocError> {
    let program = clap::Command::new(alloc, "first_moves")
        .about(
            "Says of each first turn of a problem who wins after it, and whether the solution is unique.",
        )
        .version(VERSION);
    let program = program.arg(steps_argument(alloc))?;
    let program = program.arg(depth_argument(alloc))?;
    let program = program.arg(list_argument(alloc))?;
    let program = program.arg(json_argument(alloc))?;
    let program = program.arg(grade_argument(alloc))?;
    let program = program.arg(coordinates_argument(alloc))?;
    program.arg(progress_argument(alloc))
}

fn steps_argument<'a>(alloc: Global) -> Arg<'a> {
    Arg::new(alloc, "steps")
        .help("The most steps of the search after each turn, 1 to 10000000")
        .long("steps")
        .value_name("N")
        .value_parser(ValueParser::unsigned(1, MAX_STEPS))
        .default_value("100000")
}

fn depth_argument<'a>(alloc: Global) -> Arg<'a> {
    Arg::new(alloc, "depth")
        .help("Judges the winner's turns on the line too, up to its Nth, 1 to 50")
        .long("depth")
        .value_name("N")
        .value_parser(ValueParser::unsigned(1, MAX_DEPTH))
        .default_value("1")
}

fn list_argument<'a>(alloc: Global) -> Arg<'a> {
    Arg::new(alloc, "list")
        .help("Writes a line for each turn in place of the record")
        .long("list")
        .action(ArgAction::SetTrue)
}

fn json_argument<'a>(alloc: Global) -> Arg<'a> {
    Arg::new(alloc, "json")
        .help("Writes JSON, an object a line, in place of the record")
        .long("json")
        .action(ArgAction::SetTrue)
}

fn grade_argument<'a>(alloc: Global) -> Arg<'a> {
    Arg::new(alloc, "grade")
        .help(
            "Writes JSON with the winner, and for one right turn a line for people, traps and a grade",
        )
        .long("grade")
        .action(ArgAction::SetTrue)
}

fn coordinates_argument<'a>(alloc: Global) -> Arg<'a> {
    Arg::new(alloc, "coordinates")
        .help("Names points of lists and JSON as at the edge of the board, D17 for dc")
        .long("coordinates")
        .action(ArgAction::SetTrue)
}

fn progress_argument<'a>(alloc: Global) -> Arg<'a> {
    Arg::new(alloc, "progress")
        .help("Tells each turn on standard error when it has been judged")
        .long("progress")
        .action(ArgAction::SetTrue)
}
