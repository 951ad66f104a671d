//! The points of a board, one by one.

ghost use Rattle.std.specs.Prelude.{◌≡◌, map};
ghost use Rattle.std.specs.Iterator.{YieldsFirst, item_count};
ghost use Rattle.go_points.specs.Grid.{points};
ghost use Rattle.go_points.specs.Place.{place_of};

use crate::MAX_POINTS;
use crate::point::Point;
use crate::size::Size;
use std::marker::Model;

/// The points of a board that are still to come, in order.
#[derive(Debug, Drop)]
pub struct Points {
    size: Size,
    next: usize,
}

impl Model for Points {
    ghost use Rattle.std.specs.Prelude.{List, ◌*◌, ◌≤◌, map, drop};
    ghost use Rattle.go_points.specs.declared.TheConstants.{MAX_SIZE};
    ghost use Rattle.go_points.specs.Grid.{points};
    ghost use Rattle.go_points.specs.Place.{Place, place_of};

    ghost Value = { List Place };

    ghost view = { λ a. map (place_of a.size) (drop a.next (points a.size)) };

    ghost invariant = { λ a. (a.next ≤ a.size * a.size) × (a.size ≤ MAX_SIZE) };
}

impl Iterator for Points {
    type Item = Point;

    ghost next_gives = { YieldsFirst (λ s. s) };

    ghost remaining = { item_count (λ s. s) };

    fn next(&mut self) -> Option<Point> {
        if self.next == self.size.area() {
            return None;
        }
        let point = self.size.point_at(self.next);
        self.next += 1;
        Some(point)
    }
}

impl Size {
    /// All points of the board, in order.
    pub fn points(self) -> Points
        ensures { result ≡ map (place_of self) (points self) }
    {
        prove!(self.area() <= MAX_POINTS);
        Points {
            size: self,
            next: 0,
        }
    }
}
