//! A drawing as a picture (SVG 1.1).

use crate::drawing::{Drawing, cell_at};
use crate::said::{described, lines_below};
use crate::stars::star_points;
use crate::style::{DARK, LIGHT, PRINT, Scheme};
use crate::window::{Window, window_of};
use go_points::{Cell, Colour, Point, Size};
use std::alloc::{AllocError, Global};

/// The distance between two lines, in pixels.
const STEP: usize = 24;

/// The distance of the first line from the picture's edge.
const EDGE: usize = 36;

/// The height of a line of text below the board.
const LINE: usize = 16;

/// The columns' letters, without I.
pub(crate) const LETTERS: &[u8] = b"ABCDEFGHJKLMNOPQRSTUVWXYZ";

/// The letter of the column with this number, from 0.
pub(crate) fn column_letter(column: usize) -> char {
    char::from(LETTERS.get(column).copied().unwrap_or(b'?'))
}

/// How a picture looks.
#[derive(Clone, Copy, Debug, PartialEq, Eq)]
pub struct Look {
    pub scheme: Scheme,
    /// Whether the whole board is drawn even if it is large.
    pub is_whole: bool,
}

/// The text of the picture.
pub fn svg(alloc: Global, drawing: &Drawing, look: Look) -> Result<String, AllocError> {
    let mut text = String::new(alloc);
    let size = drawing.size;
    let window = window_of(drawing, look.is_whole);
    let width = window.columns().saturating_add(2).saturating_mul(STEP);
    let lines = lines_below(alloc, drawing, width / 6)?;
    push_head(alloc, &mut text, drawing, window, look.scheme, lines.len())?;
    push_board(&mut text, size, window)?;
    for number in 0..size.area() {
        let point = size.point_at(number);
        if window.holds(point) {
            push_point(&mut text, drawing, window, point)?;
        }
    }
    push_said(&mut text, lines.as_slice(), window)?;
    text.push_str("</svg>\n")?;
    Ok(text)
}

/// Begins the picture: its size, its name and its colours.
fn push_head(
    alloc: Global,
    text: &mut String,
    drawing: &Drawing,
    window: Window,
    scheme: Scheme,
    lines: usize,
) -> Result<(), AllocError> {
    let width = window.columns().saturating_add(2).saturating_mul(STEP);
    let height = window
        .rows()
        .saturating_add(2)
        .saturating_mul(STEP)
        .saturating_add(lines.saturating_mul(LINE));
    write!(
        text,
        "<svg xmlns=\"http://www.w3.org/2000/svg\" viewBox=\"0 0 {width} {height}\" width=\"{width}\" height=\"{height}\" role=\"img\">\n<title>"
    )?;
    if drawing.caption.is_empty() {
        text.push_str("A Go board")?;
    } else {
        push_escaped(text, drawing.caption.as_str())?;
    }
    let said = described(alloc, drawing)?;
    write!(text, "</title>\n<desc>{said}</desc>\n<style>{LIGHT}")?;
    if let Some((before, after)) = scheme.around_dark() {
        write!(text, "{before}{DARK}{after}")?;
    }
    write!(text, "{PRINT}</style>\n")?;
    Ok(())
}

/// Appends a text, escaped so that it may be part of an element.
fn push_escaped(text: &mut String, said: &str) -> Result<(), AllocError> {
    for one in said.chars() {
        match one {
            '<' => text.push_str("&lt;")?,
            '>' => text.push_str("&gt;")?,
            '&' => text.push_str("&amp;")?,
            _ if one < ' ' => text.push(' ')?,
            _ => text.push(one)?,
        }
    }
    Ok(())
}

/// Where the column is from the picture's left edge.
fn across(window: Window, column: usize) -> usize {
    EDGE.saturating_add(STEP.saturating_mul(column.saturating_sub(window.left)))
}

/// Where the row is from the picture's upper edge.
fn down(window: Window, row: usize) -> usize {
    EDGE.saturating_add(STEP.saturating_mul(row.saturating_sub(window.top)))
}

/// Appends the empty board, with its letters and numbers.
fn push_board(text: &mut String, size: Size, window: Window) -> Result<(), AllocError> {
    let wide = window.columns().saturating_mul(STEP).saturating_add(8);
    let high = window.rows().saturating_mul(STEP).saturating_add(8);
    write!(
        text,
        "<rect class=\"wood\" x=\"20\" y=\"20\" width=\"{wide}\" height=\"{high}\" rx=\"3\"/>\n"
    )?;
    for line in 0..size.rows() as usize {
        if window.left <= line && line <= window.right {
            push_column(text, size, window, line)?;
        }
        if window.top <= line && line <= window.bottom {
            push_row(text, size, window, line)?;
        }
    }
    for point in star_points(size).iter() {
        if window.holds(point) {
            push_star(text, window, point)?;
        }
    }
    Ok(())
}

/// The class of a line.
fn line_class(size: Size, line: usize) -> &'static str {
    if line == 0 || line.saturating_add(1) == size.rows() as usize {
        "edge"
    } else {
        "line"
    }
}

/// Where lines begin: half a step before the first line across them if the board goes on there.
fn begin(size: Size, first: usize, place: usize) -> usize {
    if line_class(size, first) == "edge" {
        place
    } else {
        place.saturating_sub(STEP / 2)
    }
}

/// Where lines end.
fn end(size: Size, last: usize, place: usize) -> usize {
    if line_class(size, last) == "edge" {
        place
    } else {
        place.saturating_add(STEP / 2)
    }
}

fn push_column(
    text: &mut String,
    size: Size,
    window: Window,
    column: usize,
) -> Result<(), AllocError> {
    let x = across(window, column);
    let from = begin(size, window.top, down(window, window.top));
    let to = end(size, window.bottom, down(window, window.bottom));
    let class = line_class(size, column);
    let letter = column_letter(column);
    write!(
        text,
        "<path class=\"{class}\" d=\"M{x} {from}V{to}\"/><text x=\"{x}\" y=\"15\">{letter}</text>\n"
    )?;
    Ok(())
}

fn push_row(text: &mut String, size: Size, window: Window, row: usize) -> Result<(), AllocError> {
    let y = down(window, row);
    let base = y.saturating_add(4);
    let from = begin(size, window.left, across(window, window.left));
    let to = end(size, window.right, across(window, window.right));
    let class = line_class(size, row);
    let name = (size.rows() as usize).saturating_sub(row);
    write!(
        text,
        "<path class=\"{class}\" d=\"M{from} {y}H{to}\"/><text x=\"10\" y=\"{base}\">{name}</text>\n"
    )?;
    Ok(())
}

fn push_star(text: &mut String, window: Window, point: Point) -> Result<(), AllocError> {
    let x = across(window, point.col() as usize);
    let y = down(window, point.row() as usize);
    write!(
        text,
        "<circle class=\"star\" cx=\"{x}\" cy=\"{y}\" r=\"2.5\"/>\n"
    )?;
    Ok(())
}

/// Appends the lines below the board.
fn push_said(text: &mut String, lines: &[String], window: Window) -> Result<(), AllocError> {
    let middle = window.columns().saturating_add(2).saturating_mul(STEP / 2);
    let mut y = window.rows().saturating_add(2).saturating_mul(STEP);
    for line in lines {
        write!(text, "<text class=\"said\" x=\"{middle}\" y=\"{y}\">")?;
        push_escaped(text, line.as_str())?;
        text.push_str("</text>\n")?;
        y = y.saturating_add(LINE);
    }
    Ok(())
}

/// Appends what is at the point.
fn push_point(
    text: &mut String,
    drawing: &Drawing,
    window: Window,
    point: Point,
) -> Result<(), AllocError> {
    let x = across(window, point.col() as usize);
    let y = down(window, point.row() as usize);
    let label = label_at(drawing, point);
    match cell_at(&drawing.stones, point) {
        Cell::Stone(colour) => {
            let name = colour_name(colour);
            write!(
                text,
                "<circle class=\"{name}\" cx=\"{x}\" cy=\"{y}\" r=\"11\"/>\n"
            )?;
            match label {
                Some(label) => push_number(text, name, x, y, label)?,
                None => push_marks(text, drawing, point, x, y, on_stone(colour))?,
            }
        }
        Cell::Empty => match label {
            Some(label) => push_letter(text, x, y, label)?,
            None => push_marks(text, drawing, point, x, y, "mark")?,
        },
    }
    Ok(())
}

fn colour_name(colour: Colour) -> &'static str {
    match colour {
        Colour::Black => "black",
        Colour::White => "white",
    }
}

/// The class of a mark on a stone.
fn on_stone(colour: Colour) -> &'static str {
    match colour {
        Colour::Black => "onblack",
        Colour::White => "onwhite",
    }
}

/// The label at the point, if there is one.
pub(crate) fn label_at<'a>(drawing: &'a Drawing, point: Point) -> Option<&'a str> {
    for i in 0..drawing.labels.len() {
        if drawing.labels[i].point == point {
            return Some(drawing.labels[i].text.as_str());
        }
    }
    None
}

/// The class of a label that is long.
fn small_class(label: &str) -> &'static str {
    if label.len() > 3 { " small" } else { "" }
}

/// Appends a label on a stone.
fn push_number(
    text: &mut String,
    name: &str,
    x: usize,
    y: usize,
    label: &str,
) -> Result<(), AllocError> {
    let base = y.saturating_add(4);
    let small = small_class(label);
    write!(
        text,
        "<text class=\"n{name}{small}\" x=\"{x}\" y=\"{base}\">"
    )?;
    push_escaped(text, label)?;
    text.push_str("</text>\n")
}

/// Appends a label at an empty point.
fn push_letter(text: &mut String, x: usize, y: usize, label: &str) -> Result<(), AllocError> {
    let base = y.saturating_add(5);
    let small = small_class(label);
    write!(
        text,
        "<circle class=\"wood\" cx=\"{x}\" cy=\"{y}\" r=\"9\"/>"
    )?;
    write!(
        text,
        "<text class=\"letter{small}\" x=\"{x}\" y=\"{base}\">"
    )?;
    push_escaped(text, label)?;
    text.push_str("</text>\n")
}

/// Appends the mark of the point: a triangle, a square, a circle or a cross.
fn push_marks(
    text: &mut String,
    drawing: &Drawing,
    point: Point,
    x: usize,
    y: usize,
    class: &str,
) -> Result<(), AllocError> {
    let left = x.saturating_sub(4);
    let top = y.saturating_sub(4);
    if drawing.triangles.has(point) {
        let apex = y.saturating_sub(7);
        write!(
            text,
            "<path class=\"{class}\" d=\"M{x} {apex}l6 10h-12z\"/>\n"
        )?;
    } else if drawing.squares.has(point) && class == "mark" {
        write!(
            text,
            "<rect class=\"region\" x=\"{left}\" y=\"{top}\" width=\"8\" height=\"8\"/>\n"
        )?;
    } else if drawing.squares.has(point) {
        write!(
            text,
            "<rect class=\"{class}\" x=\"{left}\" y=\"{top}\" width=\"8\" height=\"8\"/>\n"
        )?;
    } else if drawing.circles.has(point) {
        write!(
            text,
            "<circle class=\"{class}\" cx=\"{x}\" cy=\"{y}\" r=\"5\"/>\n"
        )?;
    } else if drawing.crosses.has(point) {
        write!(
            text,
            "<path class=\"{class}\" d=\"M{left} {top}l8 8m0 -8l-8 8\"/>\n"
        )?;
    }
    Ok(())
}
