//! Points, by row and column.

ghost use Rattle.std.specs.Prelude.{◌≡◌, ◌*◌, ◌<◌, map};
ghost use Rattle.std.specs.List.{All};
ghost use Rattle.go_points.specs.declared.TheConstants.{MAX_SIZE};
ghost use Rattle.go_points.specs.Place.{Place, IsOn, number_of};
ghost use Rattle.go_points.specs.Grid.{neighbours};

use crate::MAX_SIZE;
use crate::size::Size;
use arrayvec::ArrayVec;
use std::marker::Model;

/// A point of the widest board, ordered by row and then by column, which is the order of the points of each board.
#[derive(Clone, Copy, Debug, Default, PartialEq, Eq, PartialOrd, Ord, Hash)]
pub struct Point {
    row: u8,
    column: u8,
}

impl Model for Point {
    ghost use Rattle.std.specs.Prelude.{◌<◌};
    ghost use Rattle.go_points.specs.Place.{Place};
    ghost use Rattle.go_points.specs.declared.TheConstants.{MAX_SIZE};

    ghost Value = { Place };

    ghost view = { λ a. record { row = a.row; column = a.column } };

    ghost invariant = { λ a. (a.row < MAX_SIZE) × (a.column < MAX_SIZE) };

    ghost inverse = { λ p. record { row = p.row; column = p.column } };
}

impl Point {
    pub(crate) fn new(row: u8, column: u8) -> Point
        requires row { row < MAX_SIZE }
        requires column { column < MAX_SIZE }
        ensures { result ≡ record { row = row; column = column } }
    {
        Point { row, column }
    }

    /// The column, from 0 at the left.
    pub fn col(self) -> u8
        ensures value { result ≡ self.column }
        ensures most { result < MAX_SIZE }
    {
        self.column
    }

    /// The row, from 0 at the top.
    pub fn row(self) -> u8
        ensures value { result ≡ self.row }
        ensures most { result < MAX_SIZE }
    {
        self.row
    }

    /// The number of the point on a board that holds it: row by row, from 0 at the upper left.
    pub fn number(self, size: Size) -> usize
        requires { IsOn size self }
        ensures value { result ≡ number_of size self }
        ensures within { result < size * size }
    {
        self.row as usize * size.rows() as usize + self.column as usize
    }

    /// The adjacent points of a board that holds the point, ascending.
    pub fn neighbours(self, size: Size) -> ArrayVec<Point, 4>
        requires { IsOn size self }
        ensures on_board { All (IsOn size) result.items }
        ensures exact { map (number_of size) result.items ≡ neighbours size (number_of size self) }
    {
        let rows = size.rows();
        let mut found = ArrayVec::new();
        if self.row > 0 {
            found.push(Point::new(self.row - 1, self.column));
        }
        if self.column > 0 {
            found.push(Point::new(self.row, self.column - 1));
        }
        if self.column + 1 < rows {
            found.push(Point::new(self.row, self.column + 1));
        }
        if self.row + 1 < rows {
            found.push(Point::new(self.row + 1, self.column));
        }
        found
    }
}
