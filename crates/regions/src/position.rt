//! A colouring with its chains.

ghost use Rattle.std.specs.Prelude.{◌≡◌, IfOk};

use crate::chain::{Chain, chain_from};
use crate::place::cell_at;
use crate::point_map::PointMap;
use go_points::{Cell, Colouring, Point, PointSet, Size};
use std::alloc::{AllocError, Global};

/// A colouring with its chains, in the order of their first stones.
#[derive(Drop)]
pub struct Position {
    colouring: Colouring,
    chains: Vec<Chain>,
    /// For each stone, one more than the number of its chain.
    numbers: PointMap,
}

impl Position {
    /// The colouring with its chains. It fails only if memory is refused.
    pub fn new(alloc: Global, colouring: &Colouring) -> Result<Position, AllocError>
        ensures { IfOk result (λ p. p.colouring ≡ colouring.now) }
    {
        let size = colouring.size();
        let mut chains = Vec::new(alloc);
        let mut numbers = PointMap::new();
        for number in 0..size.area() {
            let point = size.point_at(number);
            if let Cell::Stone(colour) = colouring.get(point) {
                if numbers.get(point) == 0 {
                    let chain = chain_from(colouring, colour, point);
                    chains.push(chain)?;
                    note(&mut numbers, &chain.stones, chains.len());
                }
            }
        }
        Ok(Position {
            colouring: *colouring,
            chains,
            numbers,
        })
    }

    pub fn colouring(&self) -> &Colouring
        ensures { result.now ≡ self.now.colouring }
    {
        &self.colouring
    }

    pub(crate) fn size(&self) -> Size {
        self.colouring.size()
    }

    pub(crate) fn cell(&self, point: Point) -> Cell {
        cell_at(&self.colouring, point)
    }

    pub(crate) fn is_empty_at(&self, point: Point) -> bool {
        cell_at(&self.colouring, point).is_empty()
    }

    pub(crate) fn chains(&self) -> &[Chain] {
        self.chains.as_slice()
    }

    /// The chain at the point.
    pub(crate) fn chain_at(&self, point: Point) -> Option<&Chain> {
        let number = self.numbers.get(point) as usize;
        self.chains.get(number.checked_sub(1)?)
    }

    /// The stones of the chain at the point. There are none at an empty point.
    pub fn stones(&self, point: Point) -> PointSet {
        match self.chain_at(point) {
            Some(chain) => chain.stones,
            None => PointSet::new(),
        }
    }

    /// The liberties of the chain at the point. There are none at an empty point.
    pub fn liberties(&self, point: Point) -> PointSet {
        match self.chain_at(point) {
            Some(chain) => chain.liberties,
            None => PointSet::new(),
        }
    }
}

/// Notes for all these stones that they belong to the chain of this number.
fn note(numbers: &mut PointMap, stones: &PointSet, number: usize) {
    let value = number.min(u16::MAX as usize) as u16;
    for stone in stones.iter() {
        numbers.set(stone, value);
    }
}
