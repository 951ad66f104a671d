//! A drawing for a terminal: X black, O white, # and @ black and white targets, + empty points of the region.

use crate::drawing::{Drawing, cell_at};
use crate::svg_picture::{column_letter, label_at};
use go_points::{Cell, Colour, Point};
use std::alloc::{AllocError, Global};

/// The text of the board, a line for each row.
pub fn ascii(alloc: Global, drawing: &Drawing) -> Result<String, AllocError> {
    let size = drawing.size;
    let rows = size.rows() as usize;
    let mut text = String::new(alloc);
    push_column_names(&mut text, rows)?;
    for number in 0..size.area() {
        let point = size.point_at(number);
        if point.col() == 0 {
            push_row_name(&mut text, rows.saturating_sub(point.row() as usize))?;
        }
        text.push(' ')?;
        text.push(shown(drawing, point))?;
    }
    text.push('\n')?;
    Ok(text)
}

/// The first line, which names the columns.
fn push_column_names(text: &mut String, columns: usize) -> Result<(), AllocError> {
    text.push_str("  ")?;
    for column in 0..columns {
        text.push(' ')?;
        text.push(column_letter(column))?;
    }
    Ok(())
}

/// Begins the line of the row with this number.
fn push_row_name(text: &mut String, row: usize) -> Result<(), AllocError> {
    let pad = if row < 10 { " " } else { "" };
    write!(text, "\n{pad}{row}")?;
    Ok(())
}

/// The character of a point.
fn shown(drawing: &Drawing, point: Point) -> char {
    let is_target = drawing.triangles.has(point);
    match cell_at(&drawing.stones, point) {
        Cell::Stone(Colour::Black) => if is_target { '#' } else { 'X' },
        Cell::Stone(Colour::White) => if is_target { '@' } else { 'O' },
        Cell::Empty => empty_shown(drawing, point),
    }
}

/// The character of an empty point: its label's first, or a sign of the region.
fn empty_shown(drawing: &Drawing, point: Point) -> char {
    if let Some(label) = label_at(drawing, point) {
        if let Some(first) = label.chars().next() {
            return first;
        }
    }
    if drawing.squares.has(point) { '+' } else { '.' }
}
