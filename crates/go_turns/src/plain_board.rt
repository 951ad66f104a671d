//! The simplest board: its cells, and nothing kept beside them.

use crate::board::{Board, NoLiberty, Occupied};
use crate::clearing::{are_same, clear_colour, find_without_liberty};
use go_points::{Cell, Colour, Colouring, MAX_SIZE, Point, Size};
use std::marker::Model;
use stone_key::key_of;

/// A board that keeps only its cells and looks for captures by sweeps over all of them.
#[derive(Clone, Copy, Debug)]
pub struct PlainBoard {
    colouring: Colouring,
}

impl Model for PlainBoard {
    ghost use Rattle.std.specs.Prelude.{◌≡◌, List, None};
    ghost use Rattle.go_points.specs.declared.Cell.{Cell};
    ghost use Rattle.go_points.specs.Grid.{side_of};
    ghost use Rattle.go_points.specs.Liberty.{first_without_liberty};

    ghost Value = { List Cell };

    ghost view = { λ b. b.colouring };

    ghost invariant = { λ b. first_without_liberty (side_of b.colouring) b.colouring ≡ None };

    ghost inverse = { λ c. record { colouring = c } };
}

impl Board for PlainBoard {
    ghost content = { λ b. b };

    fn new(size: Size) -> PlainBoard {
        PlainBoard {
            colouring: Colouring::empty(size),
        }
    }

    fn copy(&self) -> PlainBoard {
        *self
    }

    fn copy_from(&mut self, other: &PlainBoard) {
        self.colouring = other.colouring;
    }

    fn size(&self) -> Size {
        self.colouring.size()
    }

    fn cell(&self, point: Point) -> Cell {
        self.colouring.get(point)
    }

    fn colouring(&self) -> Colouring {
        prove!(self.colouring.size().rows() <= MAX_SIZE);
        self.colouring
    }

    fn key(&self) -> u64 {
        key_of(&self.colouring)
    }

    fn play(&mut self, colour: Colour, point: Point) -> Result<u16, Occupied> {
        if !are_same(self.colouring.get(point), Cell::Empty) {
            return Err(Occupied);
        }
        self.colouring.set(point, Cell::Stone(colour));
        let captured = clear_colour(&mut self.colouring, colour.opponent());
        let lost = clear_colour(&mut self.colouring, colour);
        Ok(captured + lost)
    }

    fn quiet(&self, colour: Colour, point: Point) -> bool {
        let mut placed = self.colouring;
        prove!(placed.size().rows() <= MAX_SIZE);
        placed.set(point, Cell::Stone(colour));
        match find_without_liberty(&placed) {
            None => true,
            Some(_) => false,
        }
    }

    fn is_costly(&self, _colour: Colour, _point: Point) -> bool {
        false
    }

    fn assign(&mut self, colouring: &Colouring) -> Result<(), NoLiberty> {
        match find_without_liberty(colouring) {
            Some(point) => Err(NoLiberty { point }),
            None => {
                self.colouring = *colouring;
                Ok(())
            }
        }
    }

    fn restore(&mut self, colouring: &Colouring) {
        self.colouring = *colouring;
    }
}
