//! The command line, read by `clap`.

use crate::side::Side;
use clap::builder::ValueParser;
use clap::{Arg, ArgAction, ArgMatches};
use record_marks::{MAX_NODE_NUMBER, node_argument};
use run_parts::MAX_STEPS;
use std::alloc::{AllocError, Global};
use std::convert::AsStr;
use tool_parts::{NoRequest, no_request};
use tsumego_version::VERSION;

/// The numbers of steps that are taken if none is asked for: about one group, and about all groups of a position, of which a board
/// of 19 rows has some sixty.
const STEPS: u64 = 100_000;

const STEPS_FOR_ALL: u64 = 20_000;

/// Which claims are written.
#[derive(Clone, Copy, Debug, PartialEq, Eq)]
pub enum Length {
    /// Short claims, by which the questions were decided.
    Short,
    /// Claims that play everything out, as `tsumego check` reads them.
    Full,
}

/// The form in which the answer is written.
#[derive(Clone, Copy, Debug, PartialEq, Eq)]
pub enum Form {
    /// Lines for a reader.
    Lines,
    /// JSON, with one object on each line.
    Json,
    /// One SGF record with the solutions as variations.
    Record,
    /// The lines, and after them each question that was decided, as a record with its claim.
    Claims(Length),
}

/// What the words ask for.
#[derive(Drop)]
pub struct Request {
    /// The node of the main line.
    pub node: Option<usize>,
    /// The stone; the one that the record's marks name if this is empty.
    pub target: String,
    /// The side that moves first, if only one is asked about.
    pub first: Option<Side>,
    /// The point of a move to which an answer is asked for; none if this is empty.
    pub answer: String,
    /// The greatest number of steps of the search for each question.
    pub steps: u64,
    /// Whether one procedure is asked in place of two.
    pub is_quick: bool,
    /// Whether each question of the procedures is told, by its size and walls.
    pub is_why: bool,
    /// Whether all groups of the position are asked about.
    pub is_all: bool,
    /// Whether the score is asked for.
    pub is_score: bool,
    pub form: Form,
    /// Whether the past is ignored.
    pub is_position_only: bool,
    /// Whether each question is reported on standard error when it has been asked.
    pub is_told: bool,
}

/// What the words ask for. The first word is the program's name.
pub fn read_request<'a, S: AsStr>(alloc: Global, words: &'a [S]) -> Result<Request, NoRequest> {
    let program = program(alloc)?;
    match program.try_get_matches_from(words) {
        Ok(matches) => chosen(alloc, &matches),
        Err(error) => Err(no_request(alloc, &error)),
    }
}

/// What a parse found.
fn chosen(alloc: Global, given: &ArgMatches<'_>) -> Result<Request, NoRequest> {
    if let Some(fault) = fault_of(given) {
        return Err(NoRequest::Words(format!(in alloc; "error: {fault}\n")?));
    }
    let target = text(alloc, given, "target")?;
    let first = first(alloc, given)?;
    let answer = text(alloc, given, "answer")?;
    Ok(Request {
        node: number(given, "node"),
        target,
        first,
        answer,
        steps: steps(given),
        is_quick: flag(given, "quick"),
        is_why: flag(given, "why"),
        is_all: flag(given, "all"),
        is_score: flag(given, "score"),
        form: chosen_form(given),
        is_position_only: flag(given, "position-only"),
        is_told: flag(given, "progress"),
    })
}

/// Why words that are each well formed ask for nothing when taken together, or one of them changes nothing.
fn fault_of(given: &ArgMatches<'_>) -> Option<&'static str> {
    let forms = [
        flag(given, "json"),
        flag(given, "sgf"),
        flag(given, "claims"),
        flag(given, "full-claims"),
    ];
    if forms.iter().filter(|is_named| **is_named).count() > 1 {
        return Some(
            "'--json', '--sgf', '--claims' and '--full-claims' are forms of one answer; name one of them",
        );
    }
    let has_target = given.get_str("target").is_some();
    if flag(given, "all") || flag(given, "score") {
        return fault_of_board(given, has_target);
    }
    if is_empty(given, "target") {
        return Some("'--target' wants a point of the board");
    }
    if given.get_one::<u64>("node").is_some() && !has_target {
        return Some("'--node' wants a '--target' at that node, '--all' or '--score'");
    }
    if given.get_str("answer").is_some() {
        return fault_of_answer(given);
    }
    if flag(given, "why") && flag(given, "json") {
        return Some("'--json' has every question already, so '--why' adds nothing to it");
    }
    None
}

/// Why the words ask for nothing, or one changes nothing, where the answer to a move is asked for.
fn fault_of_answer(given: &ArgMatches<'_>) -> Option<&'static str> {
    if is_empty(given, "answer") {
        return Some("'--answer' wants a point of the board");
    }
    let has_claims = flag(given, "claims") || flag(given, "full-claims");
    if flag(given, "sgf") || has_claims || given.get_str("first").is_some() {
        return Some("'--answer' is told in lines or with '--json', without '--first'");
    }
    if flag(given, "quick") || flag(given, "why") || flag(given, "progress") {
        return Some(
            "'--quick', '--why' and '--progress' are about procedures, and '--answer' asks none",
        );
    }
    None
}

/// Why the words ask for nothing, or one changes nothing, where the whole board is asked about.
fn fault_of_board(given: &ArgMatches<'_>, has_target: bool) -> Option<&'static str> {
    if has_target {
        return Some(
            "'--all' and '--score' ask about every group, '--target' about one; name one of them",
        );
    }
    let has_claims = flag(given, "claims") || flag(given, "full-claims");
    let is_of_one = given.get_str("first").is_some() || given.get_str("answer").is_some();
    if has_claims || is_of_one || flag(given, "why") {
        return Some(
            "'--first', '--answer', '--why' and claims are for one target, and not for '--all' or '--score'",
        );
    }
    if flag(given, "score") {
        return fault_of_score(given);
    }
    None
}

/// Why the words ask for nothing, or one changes nothing, where the score is asked for.
fn fault_of_score(given: &ArgMatches<'_>) -> Option<&'static str> {
    if flag(given, "sgf") {
        return Some("'--score' has no record; '--all --sgf' marks the stones of all groups");
    }
    if flag(given, "all") {
        return Some(
            "'--all' says a line of each group, '--score' who has which points; name one of them",
        );
    }
    if flag(given, "quick") || flag(given, "progress") {
        return Some("'--quick' and '--progress' are about procedures, and '--score' asks none");
    }
    None
}

/// The form that is asked for.
fn chosen_form(given: &ArgMatches<'_>) -> Form {
    if flag(given, "json") {
        return Form::Json;
    }
    if flag(given, "sgf") {
        return Form::Record;
    }
    if flag(given, "claims") {
        return Form::Claims(Length::Short);
    }
    if flag(given, "full-claims") {
        return Form::Claims(Length::Full);
    }
    Form::Lines
}

fn flag(given: &ArgMatches<'_>, id: &str) -> bool {
    given.get_one::<bool>(id).unwrap_or(false)
}

/// Whether an argument is there with no text.
fn is_empty(given: &ArgMatches<'_>, id: &str) -> bool {
    match given.get_str(id) {
        Some(text) => text.is_empty(),
        None => false,
    }
}

/// The number of an argument.
fn number(given: &ArgMatches<'_>, id: &str) -> Option<usize> {
    match given.get_one::<u64>(id) {
        Some(number) if number <= MAX_NODE_NUMBER => Some(number as usize),
        _ => None,
    }
}

/// The greatest number of steps for each question: what is asked for, otherwise fewer for all groups of a position than for one.
fn steps(given: &ArgMatches<'_>) -> u64 {
    if let Some(steps) = given.get_one::<u64>("steps") {
        return steps;
    }
    if flag(given, "all") || flag(given, "score") {
        STEPS_FOR_ALL
    } else {
        STEPS
    }
}

/// The text of an argument; empty if it is not there.
fn text(alloc: Global, given: &ArgMatches<'_>, id: &str) -> Result<String, AllocError> {
    match given.get_str(id) {
        Some(text) => format!(in alloc; "{text}"),
        None => Ok(String::new(alloc)),
    }
}

/// The side that moves first, if the words say so.
fn first(alloc: Global, given: &ArgMatches<'_>) -> Result<Option<Side>, NoRequest> {
    let Some(side) = given.get_str("first") else {
        return Ok(None);
    };
    match side {
        "attacker" => Ok(Some(Side::Attacker)),
        "defender" => Ok(Some(Side::Defender)),
        _ => Err(NoRequest::Words(format!(in alloc;
            "error: the value of '--first' is attacker or defender\n"
        )?)),
    }
}

fn program<'a>(alloc: Global) -> Result<clap::Command<'a>, AllocError> {
    let program = clap::Command::new(alloc, "group_status")
        .about(
            "Says of a stone's group in a record, read from standard input, whether it is alive, dead or unsettled.",
        )
        .version(VERSION);
    let program = with_argument(program, node_argument(alloc))?;
    let program = with_argument(program, target_argument(alloc))?;
    let program = with_argument(program, first_argument(alloc))?;
    let program = with_argument(program, answer_argument(alloc))?;
    let program = with_argument(program, steps_argument(alloc))?;
    let program = with_argument(program, quick_argument(alloc))?;
    let program = with_argument(program, why_argument(alloc))?;
    let program = with_argument(program, all_argument(alloc))?;
    let program = with_argument(program, score_argument(alloc))?;
    let program = with_argument(program, json_argument(alloc))?;
    let program = with_argument(program, sgf_argument(alloc))?;
    let program = with_argument(program, claims_argument(alloc))?;
    let program = with_argument(program, full_claims_argument(alloc))?;
    let program = with_argument(program, position_argument(alloc))?;
    with_argument(program, progress_argument(alloc))
}

/// The program with one more argument.
fn with_argument<'a>(
    program: clap::Command<'a>,
    argument: Arg<'a>,
) -> Result<clap::Command<'a>, AllocError> {
    program.arg(argument)
}

fn target_argument<'a>(alloc: Global) -> Arg<'a> {
    Arg::new(alloc, "target")
        .help("A stone of the group, as D17 or dc [default: the record's own triangle]")
        .long("target")
        .value_name("POINT")
}

fn first_argument<'a>(alloc: Global) -> Arg<'a> {
    Arg::new(alloc, "first")
        .help("Asks only who wins where this side moves first: attacker or defender")
        .long("first")
        .value_name("SIDE")
}

fn answer_argument<'a>(alloc: Global) -> Arg<'a> {
    Arg::new(alloc, "answer")
        .help(
            "Says how a group whose status is proved is kept, or taken, after the other side's move at this point",
        )
        .long("answer")
        .value_name("POINT")
}

fn steps_argument<'a>(alloc: Global) -> Arg<'a> {
    Arg::new(alloc, "steps")
        .help(
            "The most steps of the search for each question, 1 to 10000000 [default: 100000, with --all or --score 20000]",
        )
        .long("steps")
        .value_name("N")
        .value_parser(ValueParser::unsigned(1, MAX_STEPS))
}

fn quick_argument<'a>(alloc: Global) -> Arg<'a> {
    Arg::new(alloc, "quick")
        .help(
            "Asks by one procedure in place of two: less time, and a word that is right less often",
        )
        .long("quick")
        .action(ArgAction::SetTrue)
}

fn why_argument<'a>(alloc: Global) -> Arg<'a> {
    Arg::new(alloc, "why")
        .help("Adds what happens at which size, and what was supposed outside")
        .long("why")
        .action(ArgAction::SetTrue)
}

fn all_argument<'a>(alloc: Global) -> Arg<'a> {
    Arg::new(alloc, "all")
        .help("Asks about every group of the position, quickly first, and says a line of each")
        .long("all")
        .action(ArgAction::SetTrue)
}

fn score_argument<'a>(alloc: Global) -> Arg<'a> {
    Arg::new(alloc, "score")
        .help("Says by what is proved who has each point of the board, and the score or its bounds")
        .long("score")
        .action(ArgAction::SetTrue)
}

fn json_argument<'a>(alloc: Global) -> Arg<'a> {
    Arg::new(alloc, "json")
        .help("Writes JSON with every question, an object a line")
        .long("json")
        .action(ArgAction::SetTrue)
}

fn position_argument<'a>(alloc: Global) -> Arg<'a> {
    Arg::new(alloc, "position-only")
        .help("Forgets what was played before, so that no ko is barred")
        .long("position-only")
        .action(ArgAction::SetTrue)
}

fn sgf_argument<'a>(alloc: Global) -> Arg<'a> {
    Arg::new(alloc, "sgf")
        .help("Writes one SGF record, with the solutions of the largest size that was decided")
        .long("sgf")
        .action(ArgAction::SetTrue)
}

fn claims_argument<'a>(alloc: Global) -> Arg<'a> {
    Arg::new(alloc, "claims")
        .help(
            "Writes after the lines each question that was decided, as a record with its short claim",
        )
        .long("claims")
        .action(ArgAction::SetTrue)
}

fn full_claims_argument<'a>(alloc: Global) -> Arg<'a> {
    Arg::new(alloc, "full-claims")
        .help("The same with claims for 'tsumego check', as far as the steps find them")
        .long("full-claims")
        .action(ArgAction::SetTrue)
}

fn progress_argument<'a>(alloc: Global) -> Arg<'a> {
    Arg::new(alloc, "progress")
        .help("Tells each question on standard error when it has been asked")
        .long("progress")
        .action(ArgAction::SetTrue)
}
