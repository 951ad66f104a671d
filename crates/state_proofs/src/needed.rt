//! The positions that must have occurred, for each proof that leaves out a move which the past bars. Few proofs have any.

use crate::ascending::insert;
use crate::proof::{OptionalNumber, Span};
use crate::proofs::{number_of, part};
use std::alloc::{AllocError, Global};

/// The lists of all proofs by their numbers, and one that is being made.
#[derive(Drop)]
pub(crate) struct Needed {
    lists: Vec<Span>,
    positions: Vec<u64>,
    /// Ascending, and each position once.
    made: Vec<u64>,
}

impl Needed {
    pub(crate) fn new(alloc: Global) -> Needed {
        Needed {
            lists: Vec::new(alloc),
            positions: Vec::new(alloc),
            made: Vec::new(alloc),
        }
    }

    /// The positions of the list with this number, ascending.
    pub(crate) fn get(&self, list: OptionalNumber) -> &[u64] {
        part(self.positions.as_slice(), self.span(list))
    }

    fn span(&self, list: OptionalNumber) -> Span {
        let Some(number) = list.get() else {
            return Span::none();
        };
        match self.lists.get(number as usize).copied() {
            Some(span) => span,
            None => Span::none(),
        }
    }

    /// Begins a list.
    pub(crate) fn begin(&mut self) {
        self.made.clear();
    }

    /// Adds the position to the list that is being made.
    pub(crate) fn add(&mut self, position: u64) -> Result<(), AllocError> {
        insert(&mut self.made, position)
    }

    /// Adds the positions of another list.
    pub(crate) fn add_list(&mut self, list: OptionalNumber) -> Result<(), AllocError> {
        let span = self.span(list);
        for place in span.from..span.to {
            if let Some(position) = self.positions.get(place as usize).copied() {
                self.add(position)?;
            }
        }
        Ok(())
    }

    /// Takes the position out of the list that is being made.
    pub(crate) fn remove(&mut self, position: u64) {
        if let Ok(place) = self.made.binary_search(&position) {
            if place < self.made.len() {
                self.made.remove(place);
            }
        }
    }

    /// Keeps the list that was made, and returns its number. If it is this other one, that is not kept again.
    pub(crate) fn keep(&mut self, other: OptionalNumber) -> Result<OptionalNumber, AllocError> {
        if self.made.is_empty() {
            return Ok(OptionalNumber::none());
        }
        if self.get(other) == self.made.as_slice() {
            return Ok(other);
        }
        let from = number_of(self.positions.len())?;
        self.positions.extend_from_slice(self.made.as_slice())?;
        let to = number_of(self.positions.len())?;
        let number = number_of(self.lists.len())?;
        self.lists.push(Span { from, to })?;
        Ok(OptionalNumber::of(Some(number)))
    }
}
