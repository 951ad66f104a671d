//! The size of a board.

ghost use Rattle.std.specs.Prelude.{◌≡◌, ◌*◌, ◌/◌, ◌<◌, ◌≤◌, ◌↔◌, SomeIff, IsTrue};
ghost use Rattle.go_points.specs.Place.{IsOn, number_of, place_of};
ghost use Rattle.go_points.specs.declared.TheConstants.{MAX_SIZE, MAX_POINTS};

use crate::MAX_SIZE;
use crate::point::Point;
use std::marker::Model;

/// The number of rows, and of columns, of a board: 1 to `MAX_SIZE`.
#[derive(Clone, Copy, Debug, PartialEq, Eq, PartialOrd, Ord, Hash)]
pub struct Size {
    rows: u8,
}

impl Model for Size {
    ghost use Rattle.std.specs.Prelude.{ℕ, ◌≤◌};
    ghost use Rattle.go_points.specs.declared.TheConstants.{MAX_SIZE};

    ghost Value = { ℕ };

    ghost view = { λ a. a.rows };

    ghost invariant = { λ a. (1 ≤ a.rows) × (a.rows ≤ MAX_SIZE) };

    ghost inverse = { λ n. record { rows = n } };
}

impl Size {
    /// The size with this number of rows. `None` if the number is not from 1 to `MAX_SIZE`.
    pub fn new(rows: u8) -> Option<Size>
        ensures { SomeIff result ((1 ≤ rows) × (rows ≤ MAX_SIZE)) rows }
    {
        if 1 <= rows && rows <= MAX_SIZE {
            Some(Size { rows })
        } else {
            None
        }
    }

    /// The number of rows.
    pub fn rows(self) -> u8
        ensures value { result ≡ self }
        ensures least { 1 ≤ result }
        ensures most { result ≤ MAX_SIZE }
    {
        self.rows
    }

    /// The number of points.
    pub fn area(self) -> usize
        ensures value { result ≡ self * self }
        ensures least { 1 ≤ self }
        ensures most { self ≤ MAX_SIZE }
        ensures most_points { result ≤ MAX_POINTS }
    {
        self.rows as usize * self.rows as usize
    }

    /// The point in this column and row, both from 0 at the upper left, if the board has it.
    pub fn point(self, column: u8, row: u8) -> Option<Point>
        ensures { SomeIff result ((column < self) × (row < self))
            (record { row = row; column = column }) }
    {
        if column < self.rows && row < self.rows {
            Some(Point::new(row, column))
        } else {
            None
        }
    }

    /// Whether the board of this size has the point.
    pub fn holds(self, point: Point) -> bool
        ensures { IsTrue result ↔ IsOn self point }
    {
        point.row() < self.rows && point.col() < self.rows
    }

    /// The point with this number.
    pub fn point_at(self, number: usize) -> Point
        requires { number < self * self }
        ensures place { result ≡ place_of self number }
        ensures number_back { number_of self result ≡ number }
        ensures on_board { IsOn self result }
    {
        let row = row_of(number, self.rows);
        Point::new(row as u8, (number - row * self.rows as usize) as u8)
    }
}

/// 2^16 divided by each number of rows, rounded up.
const RECIPROCALS: [usize; MAX_SIZE as usize + 1] = [
    0, 65536, 32768, 21846, 16384, 13108, 10923, 9363, 8192, 7282, 6554, 5958, 5462, 5042, 4682,
    4370, 4096, 3856, 3641, 3450, 3277, 3121, 2979, 2850, 2731, 2622,
];

// The row of the point with this number. The number is divided by the rows with a multiplication, which takes a fraction of the
// time of a division.
fn row_of(number: usize, rows: u8) -> usize
    requires least { 1 ≤ rows }
    requires most { rows ≤ MAX_SIZE }
    requires within { number < rows * rows }
    ensures { result ≡ number / rows }
{
    number * RECIPROCALS[rows as usize] >> 16
}
