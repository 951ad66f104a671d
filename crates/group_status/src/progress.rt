//! How far a run is, on standard error. It does not matter if a note cannot be written.

use crate::group::Group;
use crate::lines::{end_name, push_point};
use crate::table::Row;
use go_points::{Point, Size};
use group_words::Side;
use sgf_text::write_bytes;
use std::alloc::{AllocError, Global};
use std::io::Write;
use tool_parts::colour_name;

/// Reports a question that has been asked.
pub(crate) fn tell_row<N: Write>(
    alloc: Global,
    group: &Group,
    row: &Row,
    winner: Option<Side>,
    notes: &mut N,
) -> Result<(), AllocError> {
    let mut line = begun(alloc, group.problem.size(), group.target)?;
    let mover = colour_name(row.first.colour(group.defender));
    let points = row.count;
    let walls = row.walls.name();
    let end = end_name(winner);
    write!(line, "{mover} first, {points} points, {walls}: {end}\n")?;
    let _ = write_bytes(line.as_bytes(), notes);
    Ok(())
}

/// Reports how many stones of the board have been asked about.
pub(crate) fn tell_stones<N: Write>(
    alloc: Global,
    size: Size,
    target: Point,
    done: usize,
    all: usize,
    notes: &mut N,
) -> Result<(), AllocError> {
    let mut line = begun(alloc, size, target)?;
    write!(line, "{done} of {all} stones are done\n")?;
    let _ = write_bytes(line.as_bytes(), notes);
    Ok(())
}

/// The beginning of a line about the group of this stone.
fn begun(alloc: Global, size: Size, target: Point) -> Result<String, AllocError> {
    let mut line = String::new(alloc);
    line.push_str("group_status: ")?;
    push_point(&mut line, size, target)?;
    line.push_str(": ")?;
    Ok(line)
}
