//! What is said about a region besides the record.

ghost use Rattle.go_points.specs.Place.{IsOn};

use go_points::{Cell, Point, PointSet, Size, to_gtp};
use record_marks::touches;
use sgf_text::write_bytes;
use std::alloc::{AllocError, Global};
use std::io::Write;
use target_game::Problem;

/// A region with more empty points than this usually leaves a problem unknown.
const WIDE: usize = 15;

/// How many points of the region are empty.
fn empty_count(problem: &Problem) -> usize {
    let colouring = problem.colouring();
    let size = colouring.size();
    let mut count: usize = 0;
    for number in 0..size.area() {
        let point = size.point_at(number);
        if problem.region().has(point) && colouring.get(point) == Cell::Empty {
            count = count.saturating_add(1);
        }
    }
    count
}

/// A set with the first liberty of a target that is not in the region, or without points if there is no such liberty.
fn free_liberty(problem: &Problem) -> PointSet {
    let colouring = problem.colouring();
    let size = colouring.size();
    let mut free = PointSet::new();
    for number in 0..size.area() {
        let point = size.point_at(number);
        if free.is_empty()
            && colouring.get(point) == Cell::Empty
            && !problem.region().has(point)
            && touches(size, point, problem.targets())
        {
            free.insert(point);
        }
    }
    free
}

/// Appends the letter and the number of a point, as in diagrams.
fn push_name(text: &mut String, size: Size, point: Point) -> Result<(), AllocError>
    requires { IsOn size point }
{
    let name = to_gtp(size, point);
    for byte in name.as_slice() {
        text.push(char::from(*byte))?;
    }
    Ok(())
}

/// The names of the points, with a space before each.
fn names_of(alloc: Global, size: Size, set: &PointSet) -> Result<String, AllocError> {
    let mut text = String::new(alloc);
    for number in 0..size.area() {
        let point = size.point_at(number);
        if set.has(point) {
            text.push(' ')?;
            push_name(&mut text, size, point)?;
        }
    }
    Ok(text)
}

/// Says on `notes` what hinders an answer: many empty points, and a liberty of a target that no one can fill. It does not matter if
/// a note cannot be written.
pub(crate) fn tell_region<N: Write>(
    alloc: Global,
    problem: &Problem,
    notes: &mut N,
) -> Result<(), AllocError> {
    let count = empty_count(problem);
    if count > WIDE {
        let line = format!(in alloc;
            "problem_tools: the region has {count} empty points; with more than {WIDE} a problem mostly stays unknown\n"
        )?;
        let _ = write_bytes(line.as_bytes(), notes);
    }
    let free = free_liberty(problem);
    if !free.is_empty() {
        let name = names_of(alloc, problem.size(), &free)?;
        let line = format!(in alloc;
            "problem_tools: the target has a liberty at{name} without a square, so it cannot be captured while that is so\n"
        )?;
        let _ = write_bytes(line.as_bytes(), notes);
    }
    Ok(())
}

/// Says on `notes` that the position alone asks a different question.
pub(crate) fn tell_past<N: Write>(notes: &mut N) {
    let _ = write_bytes(
        b"problem_tools: play can give a position of the game again, which was barred: without the game the answer may be another\n",
        notes,
    );
}

/// Says on `notes` where stones were placed.
pub(crate) fn tell_stones<N: Write>(
    alloc: Global,
    size: Size,
    black: &PointSet,
    white: &PointSet,
    notes: &mut N,
) -> Result<(), AllocError> {
    tell_colour(alloc, size, "black", black, notes)?;
    tell_colour(alloc, size, "white", white, notes)
}

fn tell_colour<N: Write>(
    alloc: Global,
    size: Size,
    colour: &str,
    set: &PointSet,
    notes: &mut N,
) -> Result<(), AllocError> {
    if !set.is_empty() {
        let names = names_of(alloc, size, set)?;
        let line = format!(in alloc; "problem_tools: {colour} stones are put up at{names}\n")?;
        let _ = write_bytes(line.as_bytes(), notes);
    }
    Ok(())
}
