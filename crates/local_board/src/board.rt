//! The places of a problem, what is beside each, and moves.

use crate::changing::{cell_of, changing_points, is_inside, is_target, neighbour};
use crate::place_set::PlaceSet;
use crate::position::{Position, Side, Step};
use go_points::{Cell, Colour, MAX_POINTS, Point, Size, Turn};
use std::alloc::{AllocError, Global};
use stone_key::stone_word;
use target_game::Problem;

/// A point that can change.
#[derive(Clone, Copy)]
struct Spot<S> {
    point: Point,
    /// The places beside it.
    near: S,
    /// The words of a stone of each side there. The key of a colouring is the exclusive or of such words.
    attacker: u64,
    defender: u64,
}

/// The places of a problem.
#[derive(Drop)]
pub struct Board<S> {
    size: Size,
    spots: Vec<Spot<S>>,
    /// The place of each point of the board. For a point that does not change, it is a place that does not exist.
    places: Vec<u16>,
    /// All places, the places in the region, and the places of targets.
    pub(crate) all: S,
    pub(crate) region: S,
    pub(crate) targets: S,
    /// One stone of each chain that has targets in the problem's position, beside an empty place if that may be. Stones of one chain
    /// stay on one chain.
    pub(crate) heads: S,
    /// Places where a stone of a side can never be taken: beside them is an empty point that does not change, or a stone of the
    /// side that does not change.
    pub(crate) lasting: Position<S>,
}

/// A place that does not exist.
const NO_PLACE: u16 = u16::MAX;

impl<S: PlaceSet> Board<S> {
    /// The places of the problem and its position, if a set has room for as many. The time is linear in the number of points.
    pub fn of(alloc: Global, problem: &Problem) -> Result<(Board<S>, Position<S>), AllocError> {
        let changing = changing_points(alloc, problem)?;
        let mut board = Board {
            size: problem.size(),
            spots: Vec::new(alloc),
            places: Vec::new(alloc),
            all: S::empty(),
            region: S::empty(),
            targets: S::empty(),
            heads: S::empty(),
            lasting: Position::empty(),
        };
        board.add_places(changing.as_slice())?;
        board.add_spots(problem, changing.as_slice())?;
        board.add_lasting(problem);
        let position = board.position_of(problem);
        board.heads = board.heads_of(position);
        Ok((board, position))
    }

    /// Gives each point that can change its place.
    fn add_places(&mut self, changing: &[bool]) -> Result<(), AllocError> {
        let mut next: u16 = 0;
        for changes in changing {
            if *changes && (next as usize) < S::most() {
                self.places.push(next)?;
                self.all = self.all.with(next as usize);
                next = next.saturating_add(1);
            } else {
                self.places.push(NO_PLACE)?;
            }
        }
        Ok(())
    }

    /// The place of the point with this number, if it has one.
    fn place_at(&self, number: usize) -> Option<usize> {
        match self.places.get(number).copied() {
            Some(place) if place < NO_PLACE => Some(place as usize),
            _ => None,
        }
    }

    /// Adds what is known of each place.
    fn add_spots(&mut self, problem: &Problem, changing: &[bool]) -> Result<(), AllocError> {
        let size = problem.size();
        let defender = problem.defender();
        for number in 0..size.area() {
            if changing.get(number).copied() == Some(true) && number < MAX_POINTS {
                let near = self.places_beside(problem, number);
                self.spots.push(Spot {
                    point: size.point_at(number),
                    near,
                    attacker: stone_word(number, defender.opponent()),
                    defender: stone_word(number, defender),
                })?;
                self.note_place(problem, number);
            }
        }
        Ok(())
    }

    /// Notes whether the place of the point is in the region, and whether it is that of a target.
    fn note_place(&mut self, problem: &Problem, number: usize) {
        let Some(place) = self.place_at(number) else {
            return;
        };
        if is_inside(problem, number) {
            self.region = self.region.with(place);
        }
        if is_target(problem, number) {
            self.targets = self.targets.with(place);
        }
    }

    /// The places beside the point of this number.
    fn places_beside(&self, problem: &Problem, number: usize) -> S {
        let mut near = S::empty();
        for side in 0..4usize {
            if let Some(beside) = neighbour(problem.size(), number, side) {
                if let Some(place) = self.place_at(beside) {
                    near = near.with(place);
                }
            }
        }
        near
    }

    /// Finds the places where a stone of a side can never be taken.
    fn add_lasting(&mut self, problem: &Problem) {
        for number in 0..problem.size().area() {
            if let Some(place) = self.place_at(number) {
                self.add_lasting_at(problem, number, place);
            }
        }
    }

    fn add_lasting_at(&mut self, problem: &Problem, number: usize, place: usize) {
        let defender = problem.defender();
        for side in 0..4usize {
            if let Some(beside) = neighbour(problem.size(), number, side) {
                if self.place_at(beside).is_none() {
                    let cell = cell_of(problem, beside);
                    if !cell.is_stone_of(defender) {
                        self.lasting.attacker = self.lasting.attacker.with(place);
                    }
                    if !cell.is_stone_of(defender.opponent()) {
                        self.lasting.defender = self.lasting.defender.with(place);
                    }
                }
            }
        }
    }

    /// The problem's position.
    fn position_of(&self, problem: &Problem) -> Position<S> {
        let mut position = Position::empty();
        let defender = problem.defender();
        for number in 0..problem.size().area() {
            if let Some(place) = self.place_at(number) {
                if let Cell::Stone(colour) = cell_of(problem, number) {
                    position = position.with(side_of(colour, defender), place);
                }
            }
        }
        position
    }

    /// A stone of each of the defender's chains that have targets, beside an empty place if the chain has such a stone.
    fn heads_of(&self, position: Position<S>) -> S {
        let defender = position.defender;
        let open = self.all_beside(self.empty(position));
        let mut heads = S::empty();
        let mut rest = self.targets.and(defender);
        for _ in 0..u64::MAX {
            let Some(at) = rest.take_first() else {
                return heads;
            };
            let chain = self.chain(defender, at);
            heads = heads.with(chain.and(open).first().unwrap_or(at));
            rest = rest.minus(chain);
        }
        heads
    }

    /// How many places there are.
    pub fn len(&self) -> usize {
        self.spots.len()
    }

    /// The places of the region.
    pub fn region(&self) -> S {
        self.region
    }

    /// The turn on the problem's board.
    pub fn turn(&self, step: Step) -> Turn {
        match step {
            Step::Pass => Turn::Pass,
            Step::At(place) => match self.spots.get(place as usize) {
                Some(spot) => Turn::At(spot.point),
                None => Turn::Pass,
            },
        }
    }

    /// The place of the turn. `None` if the point does not change.
    pub fn step(&self, turn: Turn) -> Option<Step> {
        let Turn::At(point) = turn else {
            return Some(Step::Pass);
        };
        if !self.size.holds(point) {
            return None;
        }
        match self.places.get(point.number(self.size)).copied() {
            Some(place) if place < NO_PLACE => Some(Step::At(place)),
            _ => None,
        }
    }

    /// The places beside this one.
    pub fn near(&self, place: usize) -> S {
        match self.spots.get(place) {
            Some(spot) => spot.near,
            None => S::empty(),
        }
    }

    /// The word of a stone of this side at the place.
    pub(crate) fn word(&self, side: Side, place: usize) -> u64 {
        match self.spots.get(place) {
            Some(spot) => match side {
                Side::Attacker => spot.attacker,
                Side::Defender => spot.defender,
            },
            None => 0,
        }
    }

    /// The key of a position, from that of another.
    pub fn key_from(&self, before: Position<S>, key: u64, after: Position<S>) -> u64 {
        let attacker = before.attacker.difference(after.attacker);
        let defender = before.defender.difference(after.defender);
        key ^ self.words_of(Side::Attacker, attacker) ^ self.words_of(Side::Defender, defender)
    }

    /// The exclusive or of the words of the side's stones at these places.
    fn words_of(&self, side: Side, places: S) -> u64 {
        let mut word = 0;
        for place in places.places() {
            word ^= self.word(side, place);
        }
        word
    }

    /// The empty places.
    pub fn empty(&self, position: Position<S>) -> S {
        self.all.minus(position.stones())
    }

    /// The places that are connected with these through places of `own`, including these.
    pub fn connected(&self, from: S, own: S) -> S {
        let mut found = from;
        let mut front = from;
        for _ in 0..u64::MAX {
            let Some(place) = front.take_first() else {
                return found;
            };
            let more = self.near(place).and(own).minus(found);
            found = found.or(more);
            front = front.or(more);
        }
        found
    }

    /// The chain of the stone at this place, if the side has these stones, and the places beside its stones.
    pub(crate) fn chain_and_near(&self, own: S, place: usize) -> (S, S) {
        let mut found = S::empty().with(place);
        let mut front = found;
        let mut near = S::empty();
        for _ in 0..u64::MAX {
            let Some(at) = front.take_first() else {
                break;
            };
            let beside = self.near(at);
            let more = beside.and(own).minus(found);
            near = near.or(beside);
            found = found.or(more);
            front = front.or(more);
        }
        (found, near)
    }

    /// The chain of the stone at this place, if the side has these stones.
    pub fn chain(&self, own: S, place: usize) -> S {
        self.connected(S::empty().with(place), own)
    }

    /// The places beside these, without these themselves.
    pub fn beside(&self, places: S) -> S {
        self.all_beside(places).minus(places)
    }

    /// The places beside these.
    pub fn all_beside(&self, places: S) -> S {
        let mut found = S::empty();
        for place in places.places() {
            found = found.or(self.near(place));
        }
        found
    }

    /// The places beside these. `None` if one of them is among the others.
    pub(crate) fn all_beside_but(&self, places: S, others: S) -> Option<S> {
        let mut found = S::empty();
        for place in places.places() {
            let near = self.near(place);
            if near.meets(others) {
                return None;
            }
            found = found.or(near);
        }
        Some(found)
    }

    /// The places that have one or more of these beside them, and those that have several.
    pub(crate) fn beside_one_and_several(&self, places: S) -> (S, S) {
        let mut one = S::empty();
        let mut several = S::empty();
        for at in places.places() {
            let near = self.near(at);
            several = several.or(one.and(near));
            one = one.or(near);
        }
        (one, several)
    }

    /// Whether a target has been taken.
    pub fn is_taken(&self, position: Position<S>) -> bool {
        !self.targets.is_within(position.defender)
    }

    /// Those of the given stones of this side that are on chains that can never be taken.
    pub fn permanent(&self, own: S, side: Side) -> S {
        self.connected(own.and(self.lasting.of(side)), own)
    }
}

/// The side of this colour.
fn side_of(colour: Colour, defender: Colour) -> Side {
    if colour == defender {
        Side::Defender
    } else {
        Side::Attacker
    }
}
