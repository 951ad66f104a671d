//! Moves that take nothing and keep their stone, found for all points of a board at once.
//!
//! A move does so if an empty point is beside it, and each stone of the other side beside it is beside another empty point. That is
//! asked in some operations on bits for each row, a hundredth of what it costs to ask the chains point by point. A move for which
//! it is not so may still take nothing, so it has to be asked for by itself.

use crate::rows::Rows;
use go_points::{Cell, Colour, Colouring, Size};

/// The empty points of a board, and those of them where a move of one side surely takes nothing and keeps its stone.
#[derive(Clone, Copy)]
pub(crate) struct QuietMoves {
    empty: Rows,
    quiet: Rows,
}

/// The stones of the side that moves, and those of the other.
#[derive(Clone, Copy)]
struct Stones {
    own: Rows,
    other: Rows,
}

impl QuietMoves {
    /// The moves of this side.
    pub(crate) fn of(colouring: &Colouring, mover: Colour) -> QuietMoves {
        let size = colouring.size();
        let stones = stones_of(colouring, mover);
        let empty = empty_beside(&stones, size);
        let weak = with_one_empty(&stones.other, &empty, size);
        QuietMoves {
            empty,
            quiet: away_from(&weak, &empty, size),
        }
    }

    /// The empty points of the row.
    pub(crate) fn empty(&self, row: u8) -> u32 {
        self.empty.at(row)
    }

    /// The points of the row where a move surely takes nothing and keeps its stone.
    pub(crate) fn quiet(&self, row: u8) -> u32 {
        self.quiet.at(row)
    }
}

fn stones_of(colouring: &Colouring, mover: Colour) -> Stones {
    let mut own = Rows::none();
    let mut other = Rows::none();
    for row in 0..colouring.size().rows() {
        let (mine, yours) = stones_in_row(colouring, mover, row);
        own.set(row, mine);
        other.set(row, yours);
    }
    Stones { own, other }
}

/// The stones of both sides in the row.
fn stones_in_row(colouring: &Colouring, mover: Colour, row: u8) -> (u32, u32) {
    let size = colouring.size();
    let mut own: u32 = 0;
    let mut other: u32 = 0;
    for column in 0..size.rows() {
        let Some(point) = size.point(column, row) else {
            return (own, other);
        };
        if let Cell::Stone(colour) = colouring.get(point) {
            let bit: u32 = 1 << column;
            if colour == mover {
                own |= bit;
            } else {
                other |= bit;
            }
        }
    }
    (own, other)
}

/// The points without stones.
fn empty_beside(stones: &Stones, size: Size) -> Rows {
    let whole: u32 = (1 << size.rows()) - 1;
    let mut empty = Rows::none();
    for row in 0..size.rows() {
        empty.set(row, whole & !(stones.own.at(row) | stones.other.at(row)));
    }
    empty
}

/// The stones that are beside one empty point, or none.
fn with_one_empty(stones: &Rows, empty: &Rows, size: Size) -> Rows {
    let mut weak = Rows::none();
    for row in 0..size.rows() {
        weak.set(row, stones.at(row) & !empty.beside_two(row));
    }
    weak
}

/// The empty points that are beside an empty point and beside none of these stones.
fn away_from(weak: &Rows, empty: &Rows, size: Size) -> Rows {
    let mut quiet = Rows::none();
    for row in 0..size.rows() {
        quiet.set(row, empty.at(row) & empty.beside(row) & !weak.beside(row));
    }
    quiet
}
