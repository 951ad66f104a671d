//! What the nodes of a record for readers say: labels, and comments.

use crate::shown::{Note, Shown, line_to};
use go_points::{Colour, Point, Size, Turn, to_gtp, to_sgf};
use sgf_text::{Bytes, Property, Values};
use std::alloc::{AllocError, Global};
use target_game::Problem;
use tool_parts::colour_name;

/// The comment of one of the nodes, in words. `None` if it has no note.
pub(crate) fn note_text(
    alloc: Global,
    problem: &Problem,
    shown: &[Shown],
    node: &Shown,
) -> Result<Option<String>, AllocError> {
    let side = colour_name(problem.defender());
    match &node.note {
        Note::Nothing => Ok(None),
        Note::Eyes(_, _) => Ok(Some(format!(in alloc;
            "{side} lives: the eyes a and b. {side} may pass for ever."
        )?)),
        Note::Liberty(_) => Ok(Some(format!(in alloc;
            "{side} lives: nobody may play at a. {side} may pass for ever."
        )?)),
        Note::Lives => Ok(Some(format!(in alloc; "{side} lives. {side} may pass for ever.")?)),
        Note::Again(place) => Ok(Some(again_text(alloc, problem.size(), shown, *place)?)),
    }
}

/// The turns from the problem to the node below which play goes on alike.
fn again_text(
    alloc: Global,
    size: Size,
    shown: &[Shown],
    place: usize,
) -> Result<String, AllocError> {
    let line = line_to(alloc, shown, place)?;
    let numbers = line.as_slice();
    if numbers.is_empty() {
        return format!(in alloc; "As at the start.");
    }
    let mut text = format!(in alloc; "As after")?;
    for i in 0..numbers.len() {
        if i > 0 {
            text.push_str(",")?;
        }
        if let Some(node) = shown.get(numbers[i]) {
            push_turn(&mut text, size, node)?;
        }
    }
    text.push_str(".")?;
    Ok(text)
}

/// A space, the side's letter, a space, and the vertex or `pass`.
fn push_turn(text: &mut String, size: Size, node: &Shown) -> Result<(), AllocError> {
    match node.colour {
        Colour::Black => text.push_str(" B ")?,
        Colour::White => text.push_str(" W ")?,
    }
    match node.turn {
        Turn::Pass => text.push_str("pass"),
        Turn::At(point) => push_vertex(text, size, point),
    }
}

fn push_vertex(text: &mut String, size: Size, point: Point) -> Result<(), AllocError> {
    if !size.holds(point) {
        return Ok(());
    }
    let letters = to_gtp(size, point);
    for byte in letters.as_slice() {
        text.push(*byte as char)?;
    }
    Ok(())
}

/// The labels of a node: `a`, and `b` for a second eye. `None` if it has none.
pub(crate) fn labels(alloc: Global, node: &Shown) -> Result<Option<Property>, AllocError> {
    let mut values = Vec::new(alloc);
    match &node.note {
        Note::Eyes(first, second) => {
            values.push(label(alloc, *first, b'a')?)?;
            values.push(label(alloc, *second, b'b')?)?;
        }
        Note::Liberty(point) => values.push(label(alloc, *point, b'a')?)?,
        Note::Nothing => return Ok(None),
        Note::Lives => return Ok(None),
        Note::Again(_) => return Ok(None),
    }
    Ok(Some(Property {
        ident: Bytes::from_vec(b"LB".to_vec(alloc)?),
        values: Values::from_vec(values),
    }))
}

/// A point and its letter, as a value of LB.
fn label(alloc: Global, point: Point, letter: u8) -> Result<Bytes, AllocError> {
    let letters = to_sgf(point);
    let mut value = letters.as_slice().to_vec(alloc)?;
    value.push(b':')?;
    value.push(letter)?;
    Ok(Bytes::from_vec(value))
}
