//! The board of chains, as a board that play may use.

use crate::board::{Board, NoLiberty, Occupied};
use go_chains::ChainBoard;
use go_points::{Cell, Colour, Colouring, Point, Size};

impl Board for ChainBoard {
    ghost content = { λ b. b };

    fn new(size: Size) -> ChainBoard {
        ChainBoard::new(size)
    }

    fn copy(&self) -> ChainBoard {
        self.copy()
    }

    fn copy_from(&mut self, other: &ChainBoard) {
        self.copy_from(other);
    }

    fn size(&self) -> Size {
        self.size()
    }

    fn cell(&self, point: Point) -> Cell {
        self.cell(point)
    }

    fn colouring(&self) -> Colouring {
        self.colouring()
    }

    fn key(&self) -> u64 {
        self.key()
    }

    fn play(&mut self, colour: Colour, point: Point) -> Result<u16, Occupied> {
        self.play(colour, point)
    }

    fn quiet(&self, colour: Colour, point: Point) -> bool {
        self.quiet(colour, point)
    }

    fn is_costly(&self, colour: Colour, point: Point) -> bool {
        self.is_costly(colour, point)
    }

    fn assign(&mut self, colouring: &Colouring) -> Result<(), NoLiberty> {
        self.assign(colouring)
    }

    fn restore(&mut self, colouring: &Colouring) {
        self.restore(colouring);
    }
}
