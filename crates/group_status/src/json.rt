//! What is found, as JSON: one object for each target, each on its own line.

ghost use Rattle.std.specs.Prelude.{◌≡◌, IfOk, string_bytes};
ghost use Rattle.group_status.specs.Lines.{begun_text};

use crate::group::Group;
use crate::lines::{Report, is_by_ko, push_point, push_turn_name};
use crate::names::point_name;
use crate::proof_json::push_first_moves;
use crate::table::{Row, Table};
use crate::verdict::Procedures;
use go_points::{Colour, Point, PointSet, Size};
use group_words::{Fate, Finding, Judgement, Side, Word};
use pn_search::Cause;
use std::alloc::{AllocError, Global};
use tool_parts::colour_letter;

/// Which way a fate that is not decided leans.
fn leans(fate: Fate) -> &'static str {
    match fate {
        Fate::Alive => "life",
        Fate::Dead => "death",
        Fate::Unsettled => "either",
        Fate::Unknown => "none",
    }
}

/// Whether a status is named.
fn is_decided(word: Word) -> bool {
    word.rank() <= Word::Likely.rank()
}

/// The object of a group.
pub(crate) fn judged_object(
    alloc: Global,
    report: Report<'_>,
    judged: &Judgement,
) -> Result<String, AllocError> {
    let group = report.group;
    let mut text = begun(alloc, group)?;
    let word = judged.word.name();
    let fate = if is_decided(judged.word) {
        judged.fate.name()
    } else {
        "unknown"
    };
    write!(text, ",\"status\":\"{fate}\",\"word\":\"{word}\"")?;
    if !is_decided(judged.word) {
        let leans = leans(judged.fate);
        write!(text, ",\"leans\":\"{leans}\"")?;
    }
    push_procedures(&mut text, report.procedures)?;
    if is_decided(judged.word) && is_by_ko(report, judged.fate) {
        text.push_str(",\"ko\":true")?;
    }
    push_stones(&mut text, group)?;
    push_first_moves(&mut text, group, report.first_moves, true)?;
    push_rows(&mut text, group, report.table)?;
    Ok(text)
}

/// Appends how many procedures the word stands on.
fn push_procedures(text: &mut String, procedures: Procedures) -> Result<(), AllocError> {
    text.push_str(match procedures {
        Procedures::First => ",\"procedures\":1",
        Procedures::Both => ",\"procedures\":2",
    })
}

/// The object if only one side was asked about.
pub(crate) fn found_object(
    alloc: Global,
    report: Report<'_>,
    first: Side,
    finding: &Finding,
) -> Result<String, AllocError> {
    let group = report.group;
    let mut text = begun(alloc, group)?;
    let mover = colour_letter(first.colour(group.defender));
    let word = finding.word.name();
    write!(text, ",\"first\":\"{mover}\",\"word\":\"{word}\"")?;
    let winner = if is_decided(finding.word) {
        finding.winner
    } else {
        None
    };
    push_winner(&mut text, group.defender, winner)?;
    push_procedures(&mut text, report.procedures)?;
    push_stones(&mut text, group)?;
    push_rows(&mut text, group, report.table)?;
    Ok(text)
}

/// The beginning of an object, with its target.
fn begun(alloc: Global, group: &Group) -> Result<String, AllocError> {
    begun_at(alloc, group.position.colouring().size(), group.target)
}

/// The beginning of an object with this target.
pub(crate) fn begun_at(alloc: Global, size: Size, target: Point) -> Result<String, AllocError>
    ensures { IfOk result (λ text. string_bytes text ≡ begun_text size target) }
{
    let name = point_name(alloc, size, target)?;
    format!(in alloc; "{{\"target\":\"{name}\"")
}

fn push_winner(
    text: &mut String,
    defender: Colour,
    winner: Option<Side>,
) -> Result<(), AllocError> {
    push_named_winner(text, "winner", defender, winner)
}

fn push_named_winner(
    text: &mut String,
    key: &str,
    defender: Colour,
    winner: Option<Side>,
) -> Result<(), AllocError> {
    match winner {
        Some(side) => {
            let name = colour_letter(side.colour(defender));
            write!(text, ",\"{key}\":\"{name}\"")
        }
        None => write!(text, ",\"{key}\":null"),
    }
}

/// Appends the stones of the group.
fn push_stones(text: &mut String, group: &Group) -> Result<(), AllocError> {
    let stones = group.position.stones(group.target);
    push_points(text, "stones", group.position.colouring().size(), &stones)
}

/// Appends all questions, and the end of the object.
fn push_rows(text: &mut String, group: &Group, table: &Table) -> Result<(), AllocError> {
    text.push_str(",\"questions\":[")?;
    let mut is_first = true;
    for row in table.rows.as_slice() {
        if !is_first {
            text.push(',')?;
        }
        is_first = false;
        push_row(text, group, table, row)?;
    }
    text.push_str("]}\n")
}

/// Appends a question: who moves first, its size and walls, its points, the stones that were placed, and who wins.
fn push_row(text: &mut String, group: &Group, table: &Table, row: &Row) -> Result<(), AllocError> {
    let mover = colour_letter(row.first.colour(group.defender));
    let points = row.count;
    let walls = row.walls.name();
    write!(
        text,
        "{{\"first\":\"{mover}\",\"points\":{points},\"walls\":\"{walls}\""
    )?;
    push_winner(
        text,
        group.defender,
        table.winner_at(row.place, group.defender),
    )?;
    push_cause(text, table, row)?;
    push_winner_without_past(text, group, table, row)?;
    push_move(text, group, table, row)?;
    let size = group.position.colouring().size();
    push_points(text, "inside", size, &row.inside)?;
    push_points(text, colour_key(group.defender), size, &row.given)?;
    push_points(text, colour_key(group.defender.opponent()), size, &row.held)?;
    push_points(text, "shut", size, &row.shut)?;
    text.push('}')
}

/// The name of the list of stones of a colour that were placed.
fn colour_key(colour: Colour) -> &'static str {
    match colour {
        Colour::Black => "black",
        Colour::White => "white",
    }
}

/// Appends why nobody's win was found, and after how many steps.
fn push_cause(text: &mut String, table: &Table, row: &Row) -> Result<(), AllocError> {
    let Some((cause, steps)) = table.cause_at(row.place) else {
        return Ok(());
    };
    let name = cause_name(cause);
    write!(text, ",\"unknown\":\"{name}\",\"steps\":{steps}")
}

/// The cause, as `tsumego` names it.
pub(crate) fn cause_name(cause: Cause) -> &'static str {
    match cause {
        Cause::Steps => "step budget",
        Cause::Memory => "memory",
        Cause::NotConfirmed => "not confirmed",
        Cause::Limit => "limit",
    }
}

/// Appends who wins without the past, if the past bars a turn.
fn push_winner_without_past(
    text: &mut String,
    group: &Group,
    table: &Table,
    row: &Row,
) -> Result<(), AllocError> {
    if row.without_past.is_none() {
        return Ok(());
    }
    let winner = table.winner_at(row.without_past, group.defender);
    push_named_winner(text, "winner_without_past", group.defender, winner)
}

/// Appends the winner's first move.
fn push_move(text: &mut String, group: &Group, table: &Table, row: &Row) -> Result<(), AllocError> {
    match table.turn_at(row.place) {
        Some(turn) => {
            text.push_str(",\"move\":\"")?;
            push_turn_name(text, group.position.colouring().size(), turn)?;
            text.push('"')
        }
        None => text.push_str(",\"move\":null"),
    }
}

/// Appends a list of points after another key.
pub(crate) fn push_points(
    text: &mut String,
    name: &str,
    size: Size,
    set: &PointSet,
) -> Result<(), AllocError> {
    text.push(',')?;
    push_set(text, name, size, set)
}

/// Appends a list of points.
pub(crate) fn push_set(
    text: &mut String,
    name: &str,
    size: Size,
    set: &PointSet,
) -> Result<(), AllocError> {
    write!(text, "\"{name}\":[")?;
    let mut is_first = true;
    for point in set.iter() {
        text.push_str(if is_first { "\"" } else { ",\"" })?;
        is_first = false;
        push_point(text, size, point)?;
        text.push('"')?;
    }
    text.push(']')
}
