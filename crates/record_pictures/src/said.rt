//! The text below a board, and the text for readers to whom the picture is read aloud.

use crate::drawing::{Drawing, cell_at};
use crate::names::push_names;
use go_points::{Cell, Colour, PointSet};
use std::alloc::{AllocError, Global};

/// The lines below the board: the caption, and the turns that are described there. A line has at most this many characters, if the
/// words allow it.
pub(crate) fn lines_below(
    alloc: Global,
    drawing: &Drawing,
    width: usize,
) -> Result<Vec<String>, AllocError> {
    let mut lines = Vec::new(alloc);
    push_wrapped(alloc, drawing.caption.as_str(), width, &mut lines)?;
    let told = joined(alloc, drawing.told.as_slice())?;
    push_wrapped(alloc, told.as_str(), width, &mut lines)?;
    Ok(lines)
}

/// The texts with commas between them.
fn joined(alloc: Global, texts: &[String]) -> Result<String, AllocError> {
    let mut text = String::new(alloc);
    for i in 0..texts.len() {
        if i > 0 {
            text.push_str(", ")?;
        }
        text.push_str(texts[i].as_str())?;
    }
    Ok(text)
}

/// Appends the text, split at spaces and line ends into lines of at most this many characters. A longer word has a line of its own.
fn push_wrapped(
    alloc: Global,
    text: &str,
    width: usize,
    lines: &mut Vec<String>,
) -> Result<(), AllocError> {
    for part in text.split('\n') {
        push_words(alloc, part, width, lines)?;
    }
    Ok(())
}

/// Appends the words of a text without line ends.
fn push_words(
    alloc: Global,
    text: &str,
    width: usize,
    lines: &mut Vec<String>,
) -> Result<(), AllocError> {
    let mut line = String::new(alloc);
    let mut length: usize = 0;
    for word in text.split(' ') {
        add_word(alloc, &mut line, &mut length, word, width, lines)?;
    }
    push_line(alloc, &mut line, lines)
}

/// Appends the word to the line or, if there is no room, begins the next line with it.
fn add_word(
    alloc: Global,
    line: &mut String,
    length: &mut usize,
    word: &str,
    width: usize,
    lines: &mut Vec<String>,
) -> Result<(), AllocError> {
    if word.is_empty() {
        return Ok(());
    }
    let word_length = word.chars().count();
    let more = length.saturating_add(word_length).saturating_add(1);
    if more > width {
        push_line(alloc, line, lines)?;
        *length = word_length;
    } else {
        *length = more;
    }
    if !line.is_empty() {
        line.push(' ')?;
    }
    line.push_str(word)
}

/// Appends the line, if it is not empty, and begins another.
fn push_line(alloc: Global, line: &mut String, lines: &mut Vec<String>) -> Result<(), AllocError> {
    if !line.is_empty() {
        lines.push(format!(in alloc; "{line}")?)?;
        line.clear();
    }
    Ok(())
}

/// The stones of this colour.
fn stones_of(drawing: &Drawing, colour: Colour) -> PointSet {
    let size = drawing.size;
    let mut set = PointSet::new();
    for number in 0..size.area() {
        let point = size.point_at(number);
        if cell_at(&drawing.stones, point) == Cell::Stone(colour) {
            set.insert(point);
        }
    }
    set
}

/// The picture in words.
pub(crate) fn described(alloc: Global, drawing: &Drawing) -> Result<String, AllocError> {
    let size = drawing.size;
    let rows = size.rows();
    let mut text = format!(in alloc; "A Go board of {rows} lines.")?;
    push_names(
        &mut text,
        "Black stones",
        size,
        &stones_of(drawing, Colour::Black),
    )?;
    push_names(
        &mut text,
        "White stones",
        size,
        &stones_of(drawing, Colour::White),
    )?;
    push_names(&mut text, "Marked", size, &drawing.triangles)?;
    push_names(&mut text, "Points to play at", size, &drawing.squares)?;
    Ok(text)
}
