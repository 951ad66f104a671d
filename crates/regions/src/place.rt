//! Points of a board, for any point that is asked for.

use arrayvec::ArrayVec;
use go_points::{Cell, Colouring, Point, Size};

/// The adjacent points; there are none if the board does not have the point.
pub(crate) fn neighbours(size: Size, point: Point) -> ArrayVec<Point, 4> {
    if size.holds(point) {
        point.neighbours(size)
    } else {
        ArrayVec::new()
    }
}

/// What the point holds; `Empty` if the board does not have it.
pub(crate) fn cell_at(colouring: &Colouring, point: Point) -> Cell {
    let size = colouring.size();
    if size.holds(point) {
        colouring.get(point)
    } else {
        Cell::Empty
    }
}

/// How many sides of the point are edges of the board.
pub(crate) fn edges(size: Size, point: Point) -> usize {
    let count = neighbours(size, point).len();
    4usize.saturating_sub(count)
}
