//! The command line, in `clap`'s terms. Proving it is expensive, so each part of the grammar has a function of its own.

use clap::builder::ValueParser;
use clap::{Arg, ArgAction};
use record_marks::{MAX_NODE_NUMBER, node_argument};
use std::alloc::{AllocError, Global};
use tsumego_version::VERSION;

/// The program with its subcommands, one of which has to be named.
pub(crate) fn program<'a>(alloc: Global) -> Result<clap::Command<'a>, AllocError> {
    let program = clap::Command::new(alloc, "problem_tools")
        .about("Makes problems of records, read from standard input, and shows them.")
        .version(VERSION)
        .subcommand_required(true);
    let program = with_command(program, split_command(alloc))?;
    let program = with_command(program, mark_command(alloc))?;
    let program = with_command(program, page_command(alloc))?;
    with_command(program, picture_command(alloc))
}

/// The program with one more command. It is proved here, once, that a program ends as it should if a command was not made: each
/// place at which that may happen costs the proof ten seconds.
fn with_command<'a>(
    program: clap::Command<'a>,
    command: Result<clap::Command<'a>, AllocError>,
) -> Result<clap::Command<'a>, AllocError> {
    program.subcommand(command?)
}

fn split_command<'a>(alloc: Global) -> Result<clap::Command<'a>, AllocError> {
    let split = clap::Command::new(alloc, "split").about(
        "Writes one of the game trees of a file that holds several, or each of them into a file of its own.",
    );
    let split = split.arg(tree_argument(alloc))?;
    split.arg(folder_argument(alloc))
}

fn tree_argument<'a>(alloc: Global) -> Arg<'a> {
    Arg::new(alloc, "N")
        .help("The number of the tree, from 1")
        .value_parser(ValueParser::unsigned(1, MAX_NODE_NUMBER))
}

fn folder_argument<'a>(alloc: Global) -> Arg<'a> {
    Arg::new(alloc, "into")
        .help("Writes all trees, as 0001.sgf, 0002.sgf and so on, into this folder")
        .long("into")
        .value_name("FOLDER")
}

fn mark_command<'a>(alloc: Global) -> Result<clap::Command<'a>, AllocError> {
    let mark = clap::Command::new(alloc, "mark").about(
        "Writes the record with the marks of a problem: TR, SQ and PL.",
    );
    let mark = mark.arg(node_argument(alloc))?;
    let mark = mark.arg(target_argument(alloc))?;
    let mark = mark.arg(region_argument(alloc))?;
    let mark = mark.arg(walls_argument(alloc))?;
    let mark = mark.arg(shut_argument(alloc))?;
    let mark = mark.arg(mover_argument(alloc))?;
    mark.arg(bare_argument(alloc))
}

fn target_argument<'a>(alloc: Global) -> Arg<'a> {
    Arg::new(alloc, "target")
        .help("Points of the chains that are the target, as aa,cb or A19,C18")
        .long("target")
        .value_name("POINTS")
        .required(true)
}

fn region_argument<'a>(alloc: Global) -> Arg<'a> {
    Arg::new(alloc, "region")
        .help(
            "Where both sides may play: points and rectangles, as aa,cb:db or A19,C18:D18; the number of empty points, as 9; auto; or board",
        )
        .long("region")
        .value_name("POINTS")
        .default_value("auto")
}

fn walls_argument<'a>(alloc: Global) -> Arg<'a> {
    Arg::new(alloc, "walls")
        .help(
            "With a number of empty points: what is supposed outside, by stones that are put up: open, kind, natural, hard, race, given, alone",
        )
        .long("walls")
        .value_name("WORD")
        .default_value("open")
}

fn shut_argument<'a>(alloc: Global) -> Arg<'a> {
    Arg::new(alloc, "shut")
        .help("With a number of empty points: points outside that are the attacker's too, as F5,G6")
        .long("shut")
        .value_name("POINTS")
}

fn mover_argument<'a>(alloc: Global) -> Arg<'a> {
    Arg::new(alloc, "to-play")
        .help("Who is to move, black or white [default: as the record says]")
        .long("to-play")
        .value_name("COLOUR")
}

fn bare_argument<'a>(alloc: Global) -> Arg<'a> {
    Arg::new(alloc, "bare")
        .help("Writes the position alone, without the moves before it and the variations")
        .long("bare")
        .action(ArgAction::SetTrue)
}

fn page_command<'a>(alloc: Global) -> Result<clap::Command<'a>, AllocError> {
    let page = clap::Command::new(alloc, "page").about(
        "Writes a reader's copy of a solution record. A second record after it, with the same problem, gives titles and comments.",
    );
    let page = page.arg(short_argument(alloc))?;
    let page = page.arg(depth_argument(alloc))?;
    let page = page.arg(past_argument(alloc))?;
    let page = page.arg(json_argument(alloc))?;
    page.arg(unaudited_argument(alloc))
}

fn past_argument<'a>(alloc: Global) -> Arg<'a> {
    Arg::new(alloc, "past")
        .help("Keeps the game before the problem, also where it bars nothing")
        .long("past")
        .action(ArgAction::SetTrue)
}

fn json_argument<'a>(alloc: Global) -> Arg<'a> {
    Arg::new(alloc, "json")
        .help("Writes the data of a page to click, of a record of first_moves too")
        .long("json")
        .action(ArgAction::SetTrue)
}

fn unaudited_argument<'a>(alloc: Global) -> Arg<'a> {
    Arg::new(alloc, "unaudited")
        .help(
            "With --json: shows what the audit refuses, such as a record for readers, and says so",
        )
        .long("unaudited")
        .action(ArgAction::SetTrue)
}

fn short_argument<'a>(alloc: Global) -> Arg<'a> {
    Arg::new(alloc, "short")
        .help(
            "Leaves out replies whose lines end within N turns, but for the first of each branching",
        )
        .long("short")
        .value_name("N")
        .value_parser(ValueParser::unsigned(0, MAX_NODE_NUMBER))
}

fn depth_argument<'a>(alloc: Global) -> Arg<'a> {
    Arg::new(alloc, "depth")
        .help("Shows at most N turns of each line")
        .long("depth")
        .value_name("N")
        .value_parser(ValueParser::unsigned(0, MAX_NODE_NUMBER))
}

fn picture_command<'a>(alloc: Global) -> Result<clap::Command<'a>, AllocError> {
    let picture = clap::Command::new(alloc, "picture").about(
        "Writes a picture (SVG) of the problem of a record, or of a node of its main line.",
    );
    let picture = picture.arg(pictured_argument(alloc))?;
    let picture = picture.arg(numbers_argument(alloc))?;
    let picture = picture.arg(plain_argument(alloc))?;
    let picture = picture.arg(squares_argument(alloc))?;
    let picture = picture.arg(whole_argument(alloc))?;
    let picture = picture.arg(caption_argument(alloc))?;
    let picture = picture.arg(dark_argument(alloc))?;
    let picture = picture.arg(auto_argument(alloc))?;
    picture.arg(ascii_argument(alloc))
}

fn squares_argument<'a>(alloc: Global) -> Arg<'a> {
    Arg::new(alloc, "no-squares")
        .help("Leaves the squares of the region out, and keeps all other marks")
        .long("no-squares")
        .action(ArgAction::SetTrue)
}

fn whole_argument<'a>(alloc: Global) -> Arg<'a> {
    Arg::new(alloc, "whole")
        .help("Draws a board of more than nine rows whole, not cropped to what stands on it")
        .long("whole")
        .action(ArgAction::SetTrue)
}

fn caption_argument<'a>(alloc: Global) -> Arg<'a> {
    Arg::new(alloc, "caption")
        .help("Puts this text below the board; auto for who is to move and what is asked")
        .long("caption")
        .value_name("TEXT")
}

fn dark_argument<'a>(alloc: Global) -> Arg<'a> {
    Arg::new(alloc, "dark")
        .help("Dark colours on a screen; on paper it is black on white in any case")
        .long("dark")
        .action(ArgAction::SetTrue)
}

fn auto_argument<'a>(alloc: Global) -> Arg<'a> {
    Arg::new(alloc, "auto")
        .help("Light or dark colours on a screen, as the reader's system asks")
        .long("auto")
        .action(ArgAction::SetTrue)
}

fn pictured_argument<'a>(alloc: Global) -> Arg<'a> {
    Arg::new(alloc, "node")
        .help("The node of the main line, from 0 [default: the problem's]")
        .long("node")
        .value_name("N")
        .value_parser(ValueParser::unsigned(0, MAX_NODE_NUMBER))
}

fn numbers_argument<'a>(alloc: Global) -> Arg<'a> {
    Arg::new(alloc, "numbers")
        .help("Shows the first N turns after that node too, with their numbers")
        .long("numbers")
        .value_name("N")
        .value_parser(ValueParser::unsigned(0, MAX_NODE_NUMBER))
}

fn plain_argument<'a>(alloc: Global) -> Arg<'a> {
    Arg::new(alloc, "plain")
        .help("Leaves marks and labels out")
        .long("plain")
        .action(ArgAction::SetTrue)
}

fn ascii_argument<'a>(alloc: Global) -> Arg<'a> {
    Arg::new(alloc, "ascii")
        .help("Draws for a terminal: X, O stones, #, @ targets, + region")
        .long("ascii")
        .action(ArgAction::SetTrue)
}
