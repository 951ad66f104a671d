//! The command line: what the words ask for.

use crate::commands::program;
use clap::ArgMatches;
use go_points::Colour;
use record_marks::MAX_NODE_NUMBER;
use record_pages::Cut;
use record_pictures::{Look, Scheme, Shown, View};
use regions::Walls;
use std::alloc::{AllocError, Global};
use std::convert::AsStr;
use tool_parts::{NoRequest, no_request};

/// What is written for a page.
#[derive(Clone, Copy, Debug, PartialEq, Eq)]
pub enum PageForm {
    /// The data of an interactive page, which may show what the audit refuses.
    Json { shows_unaudited: bool },
    /// A record, which may keep the game before the problem.
    Record { keeps_past: bool },
}

/// Where both sides are to play.
#[derive(Drop)]
pub enum Zone {
    /// The region that is proposed for the targets.
    Proposed,
    /// The whole board.
    Board,
    /// Points and rectangles, separated by commas.
    Points(String),
    /// This many empty points, with what is supposed outside them, and points outside that are shut.
    Count(usize, Walls, String),
}

/// What the words ask for.
#[derive(Drop)]
pub enum Request {
    /// The game tree with this number, from 1.
    Split {
        number: usize,
    },
    /// All game trees, as files of this folder.
    SplitInto {
        folder: String,
    },
    /// The record with marks.
    Mark {
        node: Option<usize>,
        /// Points of the targets' chains, separated by commas.
        targets: String,
        zone: Zone,
        mover: Option<Colour>,
        /// Whether only the present position is written.
        is_bare: bool,
    },
    /// A reader's copy of a solution record, or the data of an interactive page.
    Page {
        cut: Cut,
        form: PageForm,
    },
    /// A picture, or a drawing for a terminal.
    Picture {
        view: View,
        look: Look,
        /// The text below it; `auto` for what the problem asks.
        caption: String,
        ascii: bool,
    },
}

/// What the words ask for. The first word is the program's name.
pub fn read_request<'a, S: AsStr>(alloc: Global, words: &'a [S]) -> Result<Request, NoRequest> {
    let program = program(alloc)?;
    match program.try_get_matches_from(words) {
        Ok(matches) => chosen(alloc, &matches),
        Err(error) => Err(no_request(alloc, &error)),
    }
}

/// What a parse found.
fn chosen(alloc: Global, matches: &ArgMatches<'_>) -> Result<Request, NoRequest> {
    let Some((name, given)) = matches.subcommand() else {
        return Err(NoRequest::Words(String::new(alloc)));
    };
    match name {
        "split" => chosen_trees(alloc, given),
        "mark" => chosen_marks(alloc, given),
        "page" => chosen_page(alloc, given),
        _ => chosen_picture(alloc, given),
    }
}

/// The trees that are asked for: one, or all.
fn chosen_trees(alloc: Global, given: &ArgMatches<'_>) -> Result<Request, NoRequest> {
    let folder = text(alloc, given, "into", "")?;
    match number(given, "N") {
        Some(number) if folder.as_str() == "" => Ok(Request::Split { number }),
        None if folder.as_str() != "" => Ok(Request::SplitInto { folder }),
        _ => Err(NoRequest::Words(format!(in alloc;
            "error: split takes the number of a tree, or --into and a folder\n"
        )?)),
    }
}

/// The marks that are asked for.
fn chosen_marks(alloc: Global, given: &ArgMatches<'_>) -> Result<Request, NoRequest> {
    let node = number(given, "node");
    let targets = text(alloc, given, "target", "")?;
    let region = text(alloc, given, "region", "auto")?;
    let walls = walls(alloc, given)?;
    let shut = text(alloc, given, "shut", "")?;
    let mover = mover(alloc, given)?;
    if empty_points(region.as_str()).is_none() && (walls != Walls::Open || !shut.is_empty()) {
        return Err(NoRequest::Words(format!(in alloc;
            "error: '--walls' and '--shut' want a region of so many empty points, as '--region 9'\n"
        )?));
    }
    Ok(Request::Mark {
        node,
        targets,
        zone: zone_named(region, walls, shut),
        mover,
        is_bare: given.get_one::<bool>("bare").unwrap_or(false),
    })
}

/// Where both sides are to play, by the word for the region.
fn zone_named(region: String, walls: Walls, shut: String) -> Zone {
    if let Some(count) = empty_points(region.as_str()) {
        return Zone::Count(count, walls, shut);
    }
    if region.as_str() == "auto" {
        return Zone::Proposed;
    }
    if region.as_str() == "board" {
        return Zone::Board;
    }
    Zone::Points(region)
}

/// The page that is asked for.
fn chosen_page(alloc: Global, given: &ArgMatches<'_>) -> Result<Request, NoRequest> {
    Ok(Request::Page {
        cut: Cut {
            short: number(given, "short").unwrap_or(0),
            depth: number(given, "depth").unwrap_or(usize::MAX),
        },
        form: chosen_form(alloc, given)?,
    })
}

fn chosen_form(alloc: Global, given: &ArgMatches<'_>) -> Result<PageForm, NoRequest> {
    let shows_unaudited = given.get_one::<bool>("unaudited").unwrap_or(false);
    if given.get_one::<bool>("json").unwrap_or(false) {
        return Ok(PageForm::Json { shows_unaudited });
    }
    if shows_unaudited {
        return Err(NoRequest::Words(format!(in alloc; "error: '--unaudited' wants '--json'\n")?));
    }
    Ok(PageForm::Record {
        keeps_past: given.get_one::<bool>("past").unwrap_or(false),
    })
}

/// The picture that is asked for.
fn chosen_picture(alloc: Global, given: &ArgMatches<'_>) -> Result<Request, NoRequest> {
    let view = View {
        node: number(given, "node"),
        numbers: number(given, "numbers").unwrap_or(0),
        marks: chosen_marks_shown(given),
    };
    let look = Look {
        scheme: chosen_scheme(given),
        is_whole: given.get_one::<bool>("whole").unwrap_or(false),
    };
    let caption = text(alloc, given, "caption", "")?;
    Ok(Request::Picture {
        view,
        look,
        caption,
        ascii: given.get_one::<bool>("ascii").unwrap_or(false),
    })
}

fn chosen_marks_shown(given: &ArgMatches<'_>) -> Shown {
    if given.get_one::<bool>("plain").unwrap_or(false) {
        return Shown::Nothing;
    }
    if given.get_one::<bool>("no-squares").unwrap_or(false) {
        return Shown::NoSquares;
    }
    Shown::All
}

fn chosen_scheme(given: &ArgMatches<'_>) -> Scheme {
    if given.get_one::<bool>("auto").unwrap_or(false) {
        return Scheme::Reader;
    }
    if given.get_one::<bool>("dark").unwrap_or(false) {
        return Scheme::Dark;
    }
    Scheme::Light
}

/// The number of an argument.
fn number(given: &ArgMatches<'_>, id: &str) -> Option<usize> {
    match given.get_one::<u64>(id) {
        Some(number) if number <= MAX_NODE_NUMBER => Some(number as usize),
        _ => None,
    }
}

/// The text of an argument.
fn text(
    alloc: Global,
    given: &ArgMatches<'_>,
    id: &str,
    default: &str,
) -> Result<String, AllocError> {
    match given.get_str(id) {
        Some(text) => format!(in alloc; "{text}"),
        None => format!(in alloc; "{default}"),
    }
}

/// How many empty points the region is to have, if the word is a number.
fn empty_points(region: &str) -> Option<usize> {
    match region.parse::<u16>() {
        Ok(count) if count > 0 => Some(count as usize),
        _ => None,
    }
}

/// What is supposed outside the region.
fn walls(alloc: Global, given: &ArgMatches<'_>) -> Result<Walls, NoRequest> {
    let name = text(alloc, given, "walls", "open")?;
    match Walls::named(name.as_str()) {
        Some(walls) => Ok(walls),
        None => Err(NoRequest::Words(format!(in alloc;
            "error: the value of '--walls' is open, kind, natural, hard, race, given or alone\n"
        )?)),
    }
}

/// Who is to move, if the words say so.
fn mover(alloc: Global, given: &ArgMatches<'_>) -> Result<Option<Colour>, NoRequest> {
    let text = text(alloc, given, "to-play", "")?;
    match text.as_str() {
        "" => Ok(None),
        "B" | "b" | "black" | "Black" | "BLACK" => Ok(Some(Colour::Black)),
        "W" | "w" | "white" | "White" | "WHITE" => Ok(Some(Colour::White)),
        _ => Err(NoRequest::Words(format!(in alloc;
            "error: the value of '--to-play' is B or W\n"
        )?)),
    }
}
