//! The questions that were decided, each as a record with its claim, one after another.

use crate::group::Group;
use crate::json::cause_name;
use crate::lines::push_point;
use crate::table::Table;
use cert_check::Checked;
use go_points::{Colour, Point};
use group_words::Length;
use pn_search::{Audience, Budget, Cause, Verdict, solve};
use proof_cert::{CertWrite, write_cert};
use proved_groups::{FirstMoves, Proven, ProvenByMove};
use sgf_text::{WriteFault, write_bytes, write_tree};
use short_proofs::{Proved, prove};
use std::alloc::{AllocError, Global};
use target_game::Problem;
use tool_parts::colour_name;
use tsumego_problem::problem_tree;

/// The lines, and after them each first move that is proved to win, and each question that was decided: a line that says which, its
/// record, and its claim. If the steps find no claim of this length, or memory is refused to the search, the line of the question says so, and nothing follows it.
///
/// The questions are asked again for their claims, which were not kept. The same steps find the same short claims.
pub(crate) fn claims(
    alloc: Global,
    group: &Group,
    table: &Table,
    length: Length,
    first_moves: &FirstMoves,
    lines: &str,
) -> Result<String, AllocError> {
    let mut bytes = Vec::new(alloc);
    bytes.extend_from_slice(lines.as_bytes())?;
    let before = push_first_moves(alloc, group, first_moves, true, &mut bytes)?;
    let asked = table.asked.as_slice();
    for i in 0..asked.len() {
        if let Some(winner) = asked[i].winner {
            let head = head_of(alloc, group, table, i, before, &asked[i].problem)?;
            push_claim(
                alloc,
                table.budget,
                &asked[i].problem,
                length,
                head.as_str(),
                winner,
                &mut bytes,
            )?;
        }
    }
    text_of(bytes)
}

/// The bytes as a text, which all of them are.
fn text_of(bytes: Vec<u8>) -> Result<String, AllocError> {
    match String::from_utf8(bytes) {
        Ok(text) => Ok(text),
        Err(_) => Err(AllocError),
    }
}

/// The lines, and after them the claim by answers of the group: a line that says so, its record, and the claim.
pub(crate) fn proof_claim(
    alloc: Global,
    proven: &Proven,
    target: Point,
    lines: &str,
) -> Result<String, AllocError> {
    let mut bytes = Vec::new(alloc);
    bytes.extend_from_slice(lines.as_bytes())?;
    let mut head = String::new(alloc);
    head.push_str("== 1 ")?;
    push_point(&mut head, proven.problem().size(), target)?;
    let owner = colour_name(proven.finding().colour);
    let fate = if proven.is_alive() { "stands" } else { "dies" };
    write!(head, ", by answers: {owner} {fate}\n")?;
    push_question(alloc, proven.problem(), head.as_str(), &mut bytes)?;
    bytes.extend_from_slice(proven.finding().claim.as_slice())?;
    text_of(bytes)
}

/// The lines, and after them the claim by answers of each first move that is proved to win.
pub(crate) fn first_moves_claims(
    alloc: Global,
    group: &Group,
    first_moves: &FirstMoves,
    lines: &str,
) -> Result<String, AllocError> {
    let mut bytes = Vec::new(alloc);
    bytes.extend_from_slice(lines.as_bytes())?;
    push_first_moves(alloc, group, first_moves, false, &mut bytes)?;
    text_of(bytes)
}

/// Appends these claims, only those for which nothing is supposed if `is_outright`. Returns how many there are.
fn push_first_moves(
    alloc: Global,
    group: &Group,
    first_moves: &FirstMoves,
    is_outright: bool,
    bytes: &mut Vec<u8>,
) -> Result<usize, AllocError> {
    let mut count: usize = 0;
    for mover in [group.defender.opponent(), group.defender] {
        let found = if is_outright {
            first_moves.outright(mover)
        } else {
            first_moves.by(mover)
        };
        if let Some(proven) = found {
            count = count.saturating_add(1);
            push_first_move(alloc, group.target, count, proven, bytes)?;
        }
    }
    Ok(count)
}

/// Appends the claim with this number.
fn push_first_move(
    alloc: Global,
    target: Point,
    number: usize,
    proven: &ProvenByMove,
    bytes: &mut Vec<u8>,
) -> Result<(), AllocError> {
    let mut head = String::new(alloc);
    write!(head, "== {number} ")?;
    push_point(&mut head, proven.problem().size(), target)?;
    let mover = colour_name(proven.mover());
    let owner = colour_name(proven.finding().colour);
    let fate = if proven.is_alive() { "stands" } else { "dies" };
    write!(head, ", {mover} first, by answers: {owner} {fate}\n")?;
    push_question(alloc, proven.problem(), head.as_str(), bytes)?;
    bytes.extend_from_slice(proven.finding().claim.as_slice())
}

/// What the line of a question begins with: its number, after so many others, who moves first, and the sizes and walls that ask it.
fn head_of(
    alloc: Global,
    group: &Group,
    table: &Table,
    place: usize,
    before: usize,
    problem: &Problem,
) -> Result<String, AllocError> {
    let mut text = String::new(alloc);
    let number = place.saturating_add(1).saturating_add(before);
    let mover = colour_name(problem.mover());
    write!(text, "== {number} ")?;
    let size = group.position.colouring().size();
    if let Some(target) = problem.targets().first() {
        push_point(&mut text, size, target)?;
    }
    write!(text, ", {mover} first")?;
    push_rows(&mut text, table, place)?;
    Ok(text)
}

/// Appends the sizes and walls of all rows that ask this problem. The problem of a way out has no row.
fn push_rows(text: &mut String, table: &Table, place: usize) -> Result<(), AllocError> {
    let mut is_named = false;
    for row in table.rows.as_slice() {
        let count = row.count;
        let walls = row.walls.name();
        if row.place == Some(place) {
            write!(text, ", {count} points {walls}")?;
            is_named = true;
        } else if row.without_past == Some(place) {
            write!(text, ", {count} points {walls} without the past")?;
            is_named = true;
        }
    }
    if is_named {
        return Ok(());
    }
    text.push_str(", a way out")
}

/// A claim of one kind or the other, or why there is none.
#[derive(Drop)]
enum Found {
    Short(Vec<u8>),
    Full(Checked),
    None { cause: Cause, steps: u64 },
}

/// Appends the line of the question, which ends with its winner, its record, and its claim; or a line that says that there is no
/// claim of this kind.
fn push_claim(
    alloc: Global,
    budget: Budget,
    problem: &Problem,
    length: Length,
    head: &str,
    winner: Colour,
    bytes: &mut Vec<u8>,
) -> Result<(), AllocError> {
    let mut line = String::new(alloc);
    let found = find_claim(alloc, budget, problem, length)?;
    if let Found::None { cause, steps } = &found {
        let why = cause_name(*cause);
        write!(line, "{head}: unknown: {why}, {steps} steps\n")?;
        return bytes.extend_from_slice(line.as_bytes());
    }
    let name = colour_name(winner);
    write!(line, "{head}: {name} wins\n")?;
    push_question(alloc, problem, line.as_str(), bytes)?;
    write_claim(&found, bytes)
}

/// The claim of this kind, if the steps find one.
fn find_claim(
    alloc: Global,
    budget: Budget,
    problem: &Problem,
    length: Length,
) -> Result<Found, AllocError> {
    match length {
        Length::Short => match prove(alloc, problem, Audience::Judge, budget)? {
            Proved::Wins {
                winner: _,
                turn: _,
                text,
                certificate: _certificate,
            } => Ok(Found::Short(text)),
            Proved::Unknown { cause, steps } => Ok(Found::None { cause, steps }),
        },
        Length::Full => match solve(alloc, problem.copy(alloc)?, budget) {
            Verdict::Wins(checked) => Ok(Found::Full(checked)),
            Verdict::Unknown { cause, steps, .. } => Ok(Found::None { cause, steps }),
        },
    }
}

/// Appends the claim, if there is one. A write into memory fails only if memory is refused.
fn write_claim(found: &Found, bytes: &mut Vec<u8>) -> Result<(), AllocError> {
    match found {
        Found::Short(text) => bytes.extend_from_slice(text.as_slice()),
        Found::Full(checked) => match write_cert(checked.certificate(), bytes) {
            Ok(()) => Ok(()),
            Err(CertWrite::Write) => Err(AllocError),
            Err(CertWrite::NoSpelling) => Err(AllocError),
        },
        Found::None { .. } => Ok(()),
    }
}

/// Appends the line and the canonical record of the question.
fn push_question(
    alloc: Global,
    problem: &Problem,
    line: &str,
    bytes: &mut Vec<u8>,
) -> Result<(), AllocError> {
    bytes.extend_from_slice(line.as_bytes())?;
    let tree = problem_tree(alloc, problem)?;
    written(write_tree(&tree, bytes))?;
    written(write_bytes(b"\n", bytes))
}

/// A write into memory fails only if memory is refused.
fn written(outcome: Result<(), WriteFault>) -> Result<(), AllocError> {
    match outcome {
        Ok(()) => Ok(()),
        Err(WriteFault::Write) => Err(AllocError),
    }
}
