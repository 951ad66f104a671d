//! Who has each point of a board by what is proved, and the score.
//!
//! A point is a side's if a stone of its own stands there that lives together with all its others, by one claim that a judge has
//! accepted; or if it is empty and all its neighbours are such stones, since no stone of the other side can stay there. All other
//! points are open.

use go_points::{Cell, Colour, Colouring, Point, PointSet, Size};
use group_search::Finding;
use group_words::{Form, Request};
use proved_groups::{safe_together, search_of};
use std::alloc::{AllocError, Global};
use target_game::Problem;

/// The points of each side, and the others.
#[derive(Clone, Copy, Debug)]
struct Counts {
    black: usize,
    white: usize,
    open: usize,
}

/// The board with the owner of each point, and the score, as text or as JSON.
pub(crate) fn score(
    alloc: Global,
    problem: &Problem,
    request: &Request,
) -> Result<String, AllocError> {
    let findings = all_findings(alloc, problem, request.steps)?;
    let black = standing(alloc, problem, Colour::Black, findings.as_slice())?;
    let white = standing(alloc, problem, Colour::White, findings.as_slice())?;
    let owners = owners(problem.size(), &black, &white);
    if request.form == Form::Json {
        return score_object(alloc, &owners);
    }
    score_lines(alloc, &owners)
}

/// All that the search finds.
fn all_findings(alloc: Global, problem: &Problem, steps: u64) -> Result<Vec<Finding>, AllocError> {
    let mut search = search_of(alloc, problem, steps)?;
    let mut findings = Vec::new(alloc);
    for _ in 0..u64::MAX {
        match search.next_finding()? {
            Some(finding) => findings.push(finding)?,
            None => break,
        }
    }
    Ok(findings)
}

/// The stones of this side that live together.
fn standing(
    alloc: Global,
    problem: &Problem,
    colour: Colour,
    findings: &[Finding],
) -> Result<PointSet, AllocError> {
    match safe_together(alloc, problem, colour, findings)? {
        Some(safe) => Ok(*safe.problem().targets()),
        None => Ok(PointSet::new()),
    }
}

/// Whether the point has a stone of these, or all its neighbours have.
fn is_taken(size: Size, point: Point, stones: &PointSet) -> bool {
    if !size.holds(point) {
        return false;
    }
    if stones.has(point) {
        return true;
    }
    let neighbours = point.neighbours(size);
    !neighbours.is_empty() && neighbours.iter().all(|it| stones.has(*it))
}

/// The side that has the point, as a stone.
fn owner(size: Size, point: Point, black: &PointSet, white: &PointSet) -> Cell {
    if is_taken(size, point, black) {
        Cell::Stone(Colour::Black)
    } else if is_taken(size, point, white) {
        Cell::Stone(Colour::White)
    } else {
        Cell::Empty
    }
}

/// The side that has each point, as stones.
fn owners(size: Size, black: &PointSet, white: &PointSet) -> Colouring {
    let mut owners = Colouring::empty(size);
    for number in 0..size.area() {
        let point = size.point_at(number);
        if owners.size().holds(point) {
            owners.set(point, owner(size, point, black, white));
        }
    }
    owners
}

/// How many points each side has.
fn counted(owners: &Colouring) -> Counts {
    let mut counts = Counts {
        black: 0,
        white: 0,
        open: 0,
    };
    for number in 0..owners.size().area() {
        match owners.cell(number) {
            Cell::Stone(Colour::Black) => counts.black = counts.black.saturating_add(1),
            Cell::Stone(Colour::White) => counts.white = counts.white.saturating_add(1),
            Cell::Empty => counts.open = counts.open.saturating_add(1),
        }
    }
    counts
}

/// Appends a row of the board.
fn push_row(text: &mut String, owners: &Colouring, row: usize) -> Result<(), AllocError> {
    let rows = owners.size().rows() as usize;
    let from = row.saturating_mul(rows);
    for number in from..from.saturating_add(rows) {
        if number < owners.size().area() {
            text.push(match owners.cell(number) {
                Cell::Stone(Colour::Black) => 'B',
                Cell::Stone(Colour::White) => 'W',
                Cell::Empty => '.',
            })?;
        }
    }
    Ok(())
}

/// The rows of the board, and a line with the score.
fn score_lines(alloc: Global, owners: &Colouring) -> Result<String, AllocError> {
    let mut text = String::new(alloc);
    for row in 0..owners.size().rows() as usize {
        push_row(&mut text, owners, row)?;
        text.push('\n')?;
    }
    let Counts { black, white, open } = counted(owners);
    if open == 0 {
        write!(text, "score: Black {black}, White {white}\n")?;
        return Ok(text);
    }
    let black_most = black.saturating_add(open);
    let white_most = white.saturating_add(open);
    write!(
        text,
        "score: Black {black} to {black_most}, White {white} to {white_most}, open {open}\n"
    )?;
    Ok(text)
}

/// The JSON object of the board and the score.
fn score_object(alloc: Global, owners: &Colouring) -> Result<String, AllocError> {
    let mut text = String::new(alloc);
    text.push_str("{\"board\":[")?;
    for row in 0..owners.size().rows() as usize {
        text.push_str(if row == 0 { "\"" } else { ",\"" })?;
        push_row(&mut text, owners, row)?;
        text.push('"')?;
    }
    let Counts { black, white, open } = counted(owners);
    let black_most = black.saturating_add(open);
    let white_most = white.saturating_add(open);
    write!(
        text,
        "],\"black\":[{black},{black_most}],\"white\":[{white},{white_most}]}}\n"
    )?;
    Ok(text)
}
