//! How a proved group lives or is taken, as lines for a reader.

use crate::lines::push_point;
use crate::names::point_names;
use go_points::{Colour, PointSet, Size};
use group_search::{Answer, Finding};
use proved_groups::Proven;
use std::alloc::{AllocError, Global};
use tool_parts::colour_name;

/// The line of a group that lives by its shape.
pub(crate) fn by_shape(alloc: Global) -> Result<String, AllocError> {
    format!(in alloc;
        "  by its shape: nothing that is played takes it, anywhere on the board, even if its own side always passes\n"
    )
}

/// The lines of one that lives, or is taken, by answers.
pub(crate) fn by_answers(
    alloc: Global,
    size: Size,
    defender: Colour,
    proven: &Proven,
) -> Result<String, AllocError> {
    let owner = colour_name(defender);
    let other = colour_name(defender.opponent());
    let mut text = if proven.is_alive() {
        format!(in alloc;
            "  by answers: nothing that {other} plays takes the kept stones, anywhere on the board, if {owner} answers in the region\n"
        )?
    } else {
        format!(in alloc;
            "  by answers: whatever {owner} plays, anywhere on the board, {other} takes a stone of it by playing in the region\n"
        )?
    };
    push_details(alloc, &mut text, size, proven.finding(), "  ")?;
    Ok(text)
}

/// Appends what stands, where is played, and what it rests on, in lines that begin so.
pub(crate) fn push_details(
    alloc: Global,
    text: &mut String,
    size: Size,
    finding: &Finding,
    indent: &str,
) -> Result<(), AllocError> {
    push_points(alloc, text, indent, "kept stones", size, &finding.kept)?;
    push_points(alloc, text, indent, "region", size, &finding.region)?;
    push_answers(text, indent, size, finding.answers.as_slice())?;
    push_points(alloc, text, indent, "rests on", size, &finding.friends)
}

/// Appends a line with these points, if there are any.
fn push_points(
    alloc: Global,
    text: &mut String,
    indent: &str,
    name: &str,
    size: Size,
    points: &PointSet,
) -> Result<(), AllocError> {
    if points.is_empty() {
        return Ok(());
    }
    let names = point_names(alloc, size, points)?;
    write!(text, "{indent}{name}: {names}\n")
}

/// Appends a line with the answers to the other side's first moves, if there are any: first those that must be made.
fn push_answers(
    text: &mut String,
    indent: &str,
    size: Size,
    answers: &[Answer],
) -> Result<(), AllocError> {
    if answers.is_empty() {
        return Ok(());
    }
    write!(text, "{indent}answers: ")?;
    let made = push_those(text, size, answers, true, 0)?;
    push_those(text, size, answers, false, made)?;
    text.push('\n')
}

/// Appends the answers that are moves, or those that are passes, after so many others. Returns how many there are then.
fn push_those(
    text: &mut String,
    size: Size,
    answers: &[Answer],
    are_moves: bool,
    before: usize,
) -> Result<usize, AllocError> {
    let mut count = before;
    for one in answers {
        if one.answer.is_some() == are_moves {
            if count > 0 {
                text.push_str(", ")?;
            }
            count = count.saturating_add(1);
            push_answer(text, size, *one)?;
        }
    }
    Ok(count)
}

/// Appends a move and its answer.
fn push_answer(text: &mut String, size: Size, one: Answer) -> Result<(), AllocError> {
    push_point(text, size, one.point)?;
    text.push_str(" -> ")?;
    push_answer_name(text, size, one)
}

/// Appends the name of an answer.
pub(crate) fn push_answer_name(
    text: &mut String,
    size: Size,
    one: Answer,
) -> Result<(), AllocError> {
    match one.answer {
        Some(point) => push_point(text, size, point),
        None => text.push_str("pass"),
    }
}
