//! The colourings that have occurred, in a vector that is searched from the front: the simplest list.

ghost use Rattle.std.specs.Prelude.{◌<◌, ◌-◌, Some, None, IsFalse};
ghost use Rattle.go_turns.specs.History.{repeats};

use crate::seen::Seen;
use go_points::Colouring;
use std::alloc::{AllocError, Global};
use std::marker::Model;

/// The colourings in a vector.
#[derive(Drop)]
pub struct ListSeen {
    colourings: Vec<Colouring>,
}

impl Model for ListSeen {
    ghost use Rattle.std.specs.Prelude.{List, IsFalse};
    ghost use Rattle.go_points.specs.declared.Cell.{Cell};
    ghost use Rattle.go_turns.specs.History.{repeats};

    ghost Value = { List (List Cell) };

    ghost view = { λ s. s.colourings.items };

    ghost invariant = { λ s. IsFalse (repeats s.colourings.items) };
}

impl Seen for ListSeen {
    ghost content = { λ s. s };

    fn new(alloc: Global) -> ListSeen {
        ListSeen {
            colourings: Vec::new(alloc),
        }
    }

    fn holds(&self, colouring: &Colouring) -> Option<usize> {
        self.colourings.iter().position(|seen| colouring == seen)
    }

    fn holds_with(&self, colouring: &Colouring, _key: u64) -> Option<usize> {
        self.holds(colouring)
    }

    fn may_hold(&self, _key: u64) -> bool {
        true
    }

    fn at(&self, place: usize) -> &Colouring {
        &self.colourings[place]
    }

    fn len(&self) -> usize {
        self.colourings.len()
    }

    fn add(&mut self, colouring: Colouring) -> Result<(), AllocError> {
        self.colourings.push(colouring)?;
        Ok(())
    }

    fn add_with(&mut self, colouring: Colouring, _key: u64) -> Result<(), AllocError> {
        self.add(colouring)
    }

    fn add_new(&mut self, colouring: Colouring, _key: u64) -> Result<Option<usize>, AllocError> {
        if let Some(place) = self.holds(&colouring) {
            return Ok(Some(place));
        }
        self.colourings.push(colouring)?;
        Ok(None)
    }

    fn take_last(&mut self) {
        let _last = self.colourings.pop();
    }
}
