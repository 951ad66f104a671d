//! The part of a board that a picture shows.

use crate::drawing::{Drawing, cell_at};
use crate::svg_picture::label_at;
use go_points::{Cell, Point};

/// Boards of more rows are cropped.
const SMALL: usize = 9;

/// The first and the last column and row.
#[derive(Clone, Copy, Debug, PartialEq, Eq)]
pub(crate) struct Window {
    pub(crate) left: usize,
    pub(crate) right: usize,
    pub(crate) top: usize,
    pub(crate) bottom: usize,
}

impl Window {
    /// Whether the window shows the point.
    pub(crate) fn holds(&self, point: Point) -> bool {
        let column = point.col() as usize;
        let row = point.row() as usize;
        self.left <= column && column <= self.right && self.top <= row && row <= self.bottom
    }

    pub(crate) fn columns(&self) -> usize {
        self.right.saturating_sub(self.left).saturating_add(1)
    }

    pub(crate) fn rows(&self) -> usize {
        self.bottom.saturating_sub(self.top).saturating_add(1)
    }
}

/// The whole board or, if it is large, the part with the stones, the marks and the labels, and two more lines around it.
pub(crate) fn window_of(drawing: &Drawing, is_whole: bool) -> Window {
    let rows = drawing.size.rows() as usize;
    let last = rows.saturating_sub(1);
    let whole = Window {
        left: 0,
        right: last,
        top: 0,
        bottom: last,
    };
    if is_whole || rows <= SMALL {
        return whole;
    }
    match used(drawing) {
        Some(window) => Window {
            left: before(window.left),
            right: after(window.right, last),
            top: before(window.top),
            bottom: after(window.bottom, last),
        },
        None => whole,
    }
}

/// The least window with everything that is drawn on the empty board.
fn used(drawing: &Drawing) -> Option<Window> {
    let size = drawing.size;
    let mut found: Option<Window> = None;
    for number in 0..size.area() {
        let point = size.point_at(number);
        if is_used(drawing, point) {
            found = Some(widened(found, point));
        }
    }
    found
}

/// The window with one point more.
fn widened(window: Option<Window>, point: Point) -> Window {
    let column = point.col() as usize;
    let row = point.row() as usize;
    match window {
        Some(window) => Window {
            left: window.left.min(column),
            right: window.right.max(column),
            top: window.top.min(row),
            bottom: window.bottom.max(row),
        },
        None => Window {
            left: column,
            right: column,
            top: row,
            bottom: row,
        },
    }
}

fn is_used(drawing: &Drawing, point: Point) -> bool {
    cell_at(&drawing.stones, point) != Cell::Empty
        || drawing.triangles.has(point)
        || drawing.squares.has(point)
        || drawing.circles.has(point)
        || drawing.crosses.has(point)
        || label_at(drawing, point).is_some()
}

/// Two lines before this one, or the edge if it is near.
fn before(line: usize) -> usize {
    if line <= 3 { 0 } else { line - 2 }
}

/// Two lines after this one, or the edge if it is near.
fn after(line: usize, last: usize) -> usize {
    if line.saturating_add(3) >= last {
        last
    } else {
        line.saturating_add(2)
    }
}
