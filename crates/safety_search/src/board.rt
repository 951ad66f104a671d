//! A board with its chains, as sets of the numbers of its points.

use crate::number_set::NumberSet;
use go_points::{Cell, Colour, Colouring, Size};
use std::alloc::{AllocError, Global};

/// A chain that does not exist.
const NO_CHAIN: u16 = u16::MAX;

/// Stones of one colour that are joined.
#[derive(Clone, Copy, Debug)]
pub struct Chain {
    pub colour: Colour,
    pub stones: NumberSet,
    /// The points beside its stones that are not of it, and those of them that are empty.
    pub near: NumberSet,
    pub liberties: NumberSet,
}

/// A board with its chains, which have numbers in the order of their first stones.
#[derive(Drop)]
pub struct Board {
    size: Size,
    all: NumberSet,
    /// All points but those of the first column, and of the last.
    not_first: NumberSet,
    not_last: NumberSet,
    blacks: NumberSet,
    whites: NumberSet,
    chains: Vec<Chain>,
    /// The chain of each point.
    numbers: Vec<u16>,
}

impl Board {
    /// The board of this colouring. It fails only if memory is refused.
    pub fn of(alloc: Global, colouring: &Colouring) -> Result<Board, AllocError> {
        let size = colouring.size();
        let mut board = Board {
            size,
            all: NumberSet::below(size.area()),
            not_first: NumberSet::below(size.area()),
            not_last: NumberSet::below(size.area()),
            blacks: stones_of(colouring, Colour::Black),
            whites: stones_of(colouring, Colour::White),
            chains: Vec::new(alloc),
            numbers: Vec::new(alloc),
        };
        board.leave_out_columns();
        board.find_chains()?;
        board.number_points()?;
        Ok(board)
    }

    fn leave_out_columns(&mut self) {
        let rows = self.size.rows() as usize;
        for row in 0..rows {
            let first = row.saturating_mul(rows);
            self.not_first.remove(first);
            self.not_last.remove(first.saturating_add(rows - 1));
        }
    }

    fn find_chains(&mut self) -> Result<(), AllocError> {
        let mut found = NumberSet::empty();
        for number in 0..self.size.area() {
            if !found.has(number) {
                if let Some(colour) = self.colour_at(number) {
                    let chain = self.chain_from(colour, number);
                    found = found.or(&chain.stones);
                    self.chains.push(chain)?;
                }
            }
        }
        Ok(())
    }

    fn chain_from(&self, colour: Colour, number: usize) -> Chain {
        let stones = self.joined(&NumberSet::of(number), &self.stones(colour));
        let near = self.beside(&stones).minus(&stones);
        Chain {
            colour,
            stones,
            near,
            liberties: near.minus(&self.blacks).minus(&self.whites),
        }
    }

    fn number_points(&mut self) -> Result<(), AllocError> {
        for point in 0..self.size.area() {
            let number = self.find_chain(point);
            self.numbers.push(number)?;
        }
        Ok(())
    }

    fn find_chain(&self, point: usize) -> u16 {
        let mut number: u16 = 0;
        for chain in self.chains.iter() {
            if chain.stones.has(point) {
                return number;
            }
            number = number.saturating_add(1);
        }
        NO_CHAIN
    }

    pub fn size(&self) -> Size {
        self.size
    }

    /// All points.
    pub fn all(&self) -> &NumberSet {
        &self.all
    }

    /// The stones of this colour.
    pub fn stones(&self, colour: Colour) -> NumberSet {
        match colour {
            Colour::Black => self.blacks,
            Colour::White => self.whites,
        }
    }

    /// The points without a stone.
    pub fn empty(&self) -> NumberSet {
        self.all.minus(&self.blacks).minus(&self.whites)
    }

    /// The colour of the stone at the point, if there is one.
    pub fn colour_at(&self, point: usize) -> Option<Colour> {
        if self.blacks.has(point) {
            Some(Colour::Black)
        } else if self.whites.has(point) {
            Some(Colour::White)
        } else {
            None
        }
    }

    pub fn chains(&self) -> &[Chain] {
        self.chains.as_slice()
    }

    /// The chain of this number.
    pub fn chain(&self, number: usize) -> Option<&Chain> {
        self.chains.get(number)
    }

    /// The number of the chain at the point.
    pub fn chain_at(&self, point: usize) -> Option<usize> {
        match self.numbers.get(point).copied() {
            Some(number) if number < NO_CHAIN => Some(number as usize),
            _ => None,
        }
    }

    /// The stones of these chains.
    pub fn stones_of_chains(&self, chains: &NumberSet) -> NumberSet {
        let mut stones = NumberSet::empty();
        for number in chains.iter() {
            if let Some(chain) = self.chains.get(number) {
                stones = stones.or(&chain.stones);
            }
        }
        stones
    }

    /// The numbers of the chains with a stone at one of these points.
    pub fn chains_at(&self, points: &NumberSet) -> NumberSet {
        let mut chains = NumberSet::empty();
        for point in points.iter() {
            if let Some(number) = self.chain_at(point) {
                chains.insert(number);
            }
        }
        chains
    }

    /// The points that are beside one of these.
    pub fn beside(&self, points: &NumberSet) -> NumberSet {
        let rows = self.size.rows() as u32;
        let down = points.raised(rows);
        let up = points.lowered(rows);
        let right = points.and(&self.not_last).raised(1);
        let left = points.and(&self.not_first).lowered(1);
        down.or(&up).or(&right).or(&left).and(&self.all)
    }

    /// The points that are joined with these through points of `within`, including those of these that are in it.
    pub fn joined(&self, from: &NumberSet, within: &NumberSet) -> NumberSet {
        let mut found = from.and(within);
        let mut front = found;
        for _ in 0..u64::MAX {
            if front.is_empty() {
                break;
            }
            front = self.beside(&front).and(within).minus(&found);
            found = found.or(&front);
        }
        found
    }
}

fn stones_of(colouring: &Colouring, colour: Colour) -> NumberSet {
    let mut stones = NumberSet::empty();
    for number in 0..colouring.size().area() {
        if colouring.cell(number) == Cell::Stone(colour) {
            stones.insert(number);
        }
    }
    stones
}
