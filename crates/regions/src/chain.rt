//! A chain of a colouring, which may have no liberty.

use crate::place::{cell_at, neighbours};
use go_points::{Cell, Colour, Colouring, MAX_POINTS, Point, PointSet};

/// The stones of a chain and its liberties.
#[derive(Clone, Copy, Debug)]
pub(crate) struct Chain {
    pub(crate) colour: Colour,
    pub(crate) stones: PointSet,
    pub(crate) liberties: PointSet,
}

/// The chain of the stone of this colour at this point.
pub(crate) fn chain_from(colouring: &Colouring, colour: Colour, point: Point) -> Chain {
    let mut stones = PointSet::new();
    let mut liberties = PointSet::new();
    let mut left = PointSet::new();
    stones.insert(point);
    left.insert(point);
    // Each stone is taken once from those that are left.
    for _ in 0..MAX_POINTS {
        let Some(stone) = left.first() else {
            break;
        };
        left.remove(stone);
        for near in neighbours(colouring.size(), stone) {
            if cell_at(colouring, near) == Cell::Empty {
                liberties.insert(near);
            } else if cell_at(colouring, near) == Cell::Stone(colour) && !stones.has(near) {
                stones.insert(near);
                left.insert(near);
            }
        }
    }
    Chain {
        colour,
        stones,
        liberties,
    }
}
