//! The earlier positions of a record: none of them may come again.

use go_points::{Cell, Colour, Colouring};
use safety_search::NumberSet;
use std::alloc::{AllocError, Global};

/// The stones of an earlier position.
#[derive(Clone, Copy)]
pub(crate) struct Earlier {
    pub(crate) blacks: NumberSet,
    pub(crate) whites: NumberSet,
}

/// The earlier positions.
#[derive(Drop)]
pub(crate) struct Past {
    positions: Vec<Earlier>,
}

impl Earlier {
    /// The stones of a colouring.
    fn of(colouring: &Colouring) -> Earlier {
        let mut blacks = NumberSet::empty();
        let mut whites = NumberSet::empty();
        for number in 0..colouring.size().area() {
            match colouring.cell(number) {
                Cell::Stone(Colour::Black) => blacks.insert(number),
                Cell::Stone(Colour::White) => whites.insert(number),
                Cell::Empty => {}
            }
        }
        Earlier { blacks, whites }
    }

    pub(crate) fn stones(&self, colour: Colour) -> &NumberSet {
        match colour {
            Colour::Black => &self.blacks,
            Colour::White => &self.whites,
        }
    }
}

impl Past {
    pub(crate) fn of(alloc: Global, past: &[Colouring]) -> Result<Past, AllocError> {
        let mut positions = Vec::new(alloc);
        for colouring in past.iter() {
            positions.push(Earlier::of(colouring))?;
        }
        Ok(Past { positions })
    }

    pub(crate) fn positions(&self) -> &[Earlier] {
        self.positions.as_slice()
    }

    /// Whether an earlier position has stones of this colour at all of `stands`, and at one of `answers`.
    pub(crate) fn bars(&self, colour: Colour, stands: &NumberSet, answers: &NumberSet) -> bool {
        for earlier in self.positions.iter() {
            let stones = earlier.stones(colour);
            if stands.is_within(stones) && stones.meets(answers) {
                return true;
            }
        }
        false
    }
}
