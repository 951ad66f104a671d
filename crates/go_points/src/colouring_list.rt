//! A list of colourings. Those of at most 19 rows take less room.

ghost use Rattle.std.specs.Prelude.{◌≡◌, ◌<◌, ◌++◌, ◌-◌, ◌∷◌, [], List, OnErr, OnOk, Some, length, slice_get};
ghost use Rattle.go_points.specs.Grid.{same_cells};
ghost use Rattle.go_points.specs.declared.Cell.{Cell};

use crate::colouring::Colouring;
use crate::narrow_colouring::{NarrowColouring, is_narrow};
use std::alloc::{AllocError, Global};
use std::marker::Model;

/// Colourings in a row. One of at most 19 rows takes 104 bytes, as long as no wider one comes before it. Others take 168.
#[derive(Drop)]
pub struct ColouringList {
    // The colourings before the first wide one, and those from it on.
    narrow: Vec<NarrowColouring>,
    wide: Vec<Colouring>,
}

impl Model for ColouringList {
    ghost use Rattle.std.specs.Prelude.{List, ◌++◌};
    ghost use Rattle.go_points.specs.declared.Cell.{Cell};

    ghost Value = { List (List Cell) };

    ghost view = { λ a. a.narrow.items ++ a.wide.items };
}

impl ColouringList {
    /// The list without colourings. It allocates no memory.
    pub fn new(alloc: Global) -> ColouringList
        ensures { result ≡ [] }
    {
        ColouringList {
            narrow: Vec::new(alloc),
            wide: Vec::new(alloc),
        }
    }

    /// The number of colourings.
    pub fn len(&self) -> usize
        ensures { result ≡ length self.now }
    {
        self.narrow.len() + self.wide.len()
    }

    /// The colouring at an index of the list.
    pub fn at(&self, index: usize) -> Colouring
        requires { index < length self.now }
        ensures { slice_get self.now index ≡ Some result }
    {
        if index < self.narrow.len() {
            return self.narrow[index].widen();
        }
        self.wide[index - self.narrow.len()]
    }

    /// Whether the colouring at an index of the list is this one. It is not made wide where its first words tell.
    pub fn is_at(&self, index: usize, colouring: &Colouring) -> bool
        requires { index < length self.now }
        ensures { (found : List Cell) → slice_get self.now index ≡ Some found
            → result ≡ same_cells colouring.now found }
    {
        if index < self.narrow.len() {
            return self.narrow[index].is(colouring);
        }
        *colouring == self.wide[index - self.narrow.len()]
    }

    /// The colouring at this index, if there is one.
    pub fn get(&self, index: usize) -> Option<Colouring>
        ensures { result ≡ slice_get self.now index }
    {
        if index < self.len() {
            return Some(self.at(index));
        }
        None
    }

    /// The last colouring, if there is one.
    pub fn last(&self) -> Option<Colouring>
        ensures { result ≡ slice_get self.now (length self.now - 1) }
    {
        self.get(self.len().saturating_sub(1))
    }

    /// Appends the colouring. If memory is refused, nothing changes.
    pub fn push(&mut self, colouring: &Colouring) -> Result<(), AllocError>
        ensures ok { OnOk result (self.new ≡ self.old ++ colouring.now ∷ []) }
        ensures err { OnErr result (self.new ≡ self.old) }
    {
        if is_narrow(colouring.size()) && self.wide.is_empty() {
            self.narrow.push(NarrowColouring::of(colouring))?;
            return Ok(());
        }
        self.wide.push(*colouring)?;
        Ok(())
    }
}
