//! A number for each point of the widest board.

ghost use Rattle.std.specs.Prelude.{◌<◌};
ghost use Rattle.go_points.specs.declared.TheConstants.{MAX_POINTS};

use go_points::{MAX_POINTS, MAX_SIZE, Point};

/// A number for each point, at first 0.
#[derive(Clone, Copy, Debug)]
pub(crate) struct PointMap {
    values: [u16; MAX_POINTS],
}

impl PointMap {
    pub(crate) fn new() -> PointMap {
        PointMap {
            values: [0; MAX_POINTS],
        }
    }

    pub(crate) fn get(&self, point: Point) -> u16 {
        self.values[slot(point)]
    }

    pub(crate) fn set(&mut self, point: Point, value: u16) {
        self.values[slot(point)] = value;
    }
}

/// The number of the point on the widest board.
fn slot(point: Point) -> usize
    ensures { result < MAX_POINTS }
{
    point.row() as usize * MAX_SIZE as usize + point.col() as usize
}
