//! Points by the letters and numbers at the edge of a diagram.

use go_points::{Point, PointSet, Size, to_gtp};
use std::alloc::AllocError;

/// Appends the name of the point, or nothing if the board does not have it.
pub(crate) fn push_name(text: &mut String, size: Size, point: Point) -> Result<(), AllocError> {
    if size.holds(point) {
        for byte in to_gtp(size, point).as_slice() {
            text.push(char::from(*byte))?;
        }
    }
    Ok(())
}

/// Appends a word and the names of the points, as a sentence, or nothing if there are no points.
pub(crate) fn push_names(
    text: &mut String,
    word: &str,
    size: Size,
    set: &PointSet,
) -> Result<(), AllocError> {
    if set.is_empty() {
        return Ok(());
    }
    write!(text, " {word}:")?;
    for number in 0..size.area() {
        let point = size.point_at(number);
        if set.has(point) {
            text.push(' ')?;
            push_name(text, size, point)?;
        }
    }
    text.push('.')
}
