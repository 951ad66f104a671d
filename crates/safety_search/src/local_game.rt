//! The game that is played in one region of the board, where everything outside is hostile but the chains that are named.

use crate::board::Board;
use crate::number_set::NumberSet;
use crate::place_set::{MAX_PLACES, PlaceSet};
use crate::state::{Outcome, State};
use go_points::Colour;
use std::alloc::{AllocError, Global};

/// What is asked: whether chains are kept, or stones taken, by answers inside a region.
#[derive(Clone, Copy, Debug)]
pub struct Question {
    /// The side that answers.
    pub colour: Colour,
    /// The points of the region.
    pub region: NumberSet,
    /// The chains beside the region that it keeps here, and those that stand anyway, by their numbers.
    pub kept: NumberSet,
    pub friends: NumberSet,
    /// Those of the chains it keeps that have a liberty in another region too.
    pub giving: NumberSet,
    /// The points of the stones that are to be taken. If there are none, the question is whether stones are kept.
    pub targets: NumberSet,
}

/// The places of a question: the points of its region, ascending, and then the chains that are named.
#[derive(Drop)]
pub struct LocalGame {
    points: Vec<u16>,
    outer: Vec<u16>,
    near: Vec<PlaceSet>,
    /// The places of the region, and those of them beside a point that is neither of the region nor of a named chain.
    pub(crate) region: PlaceSet,
    pub(crate) edge: PlaceSet,
    pub(crate) friends: PlaceSet,
    pub(crate) giving: PlaceSet,
    pub(crate) targets: PlaceSet,
    root: State,
}

impl LocalGame {
    /// The game of this question. `None` if it has too many places, or a chain that is to be kept is not beside the region.
    pub fn of(
        alloc: Global,
        board: &Board,
        question: &Question,
    ) -> Result<Option<LocalGame>, AllocError> {
        let beside = board.beside(&question.region).minus(&question.region);
        let named = question.kept.or(&question.friends);
        let own = beside.and(&board.stones(question.colour));
        let outer = board.chains_at(&own).and(&named);
        let count = question.region.len().saturating_add(outer.len());
        if count > MAX_PLACES || !question.kept.is_within(&outer) {
            return Ok(None);
        }
        let mut game = LocalGame {
            points: Vec::new(alloc),
            outer: Vec::new(alloc),
            near: Vec::new(alloc),
            region: PlaceSet::empty(),
            edge: PlaceSet::empty(),
            friends: PlaceSet::empty(),
            giving: PlaceSet::empty(),
            targets: PlaceSet::empty(),
            root: State {
                own: PlaceSet::empty(),
                other: PlaceSet::empty(),
            },
        };
        game.add_points(board, question, &outer)?;
        game.add_chains(board, question, &outer)?;
        Ok(Some(game))
    }

    /// Adds the points of the region.
    fn add_points(
        &mut self,
        board: &Board,
        question: &Question,
        outer: &NumberSet,
    ) -> Result<(), AllocError> {
        let closed = question.region.or(&board.stones_of_chains(outer));
        for point in question.region.iter() {
            let place = self.points.len();
            self.points.push(point.min(u16::MAX as usize) as u16)?;
            self.region = self.region.with(place);
            match board.colour_at(point) {
                Some(colour) if colour == question.colour => {
                    self.root.own = self.root.own.with(place);
                }
                Some(_) => self.root.other = self.root.other.with(place),
                None => {}
            }
            if question.targets.has(point) {
                self.targets = self.targets.with(place);
            }
            let beside = board.beside(&NumberSet::of(point));
            if !beside.is_within(&closed) {
                self.edge = self.edge.with(place);
            }
            let near = places_of(&question.region, &beside.and(&question.region));
            self.near.push(near)?;
        }
        Ok(())
    }

    /// Adds the chains that are named.
    fn add_chains(
        &mut self,
        board: &Board,
        question: &Question,
        outer: &NumberSet,
    ) -> Result<(), AllocError> {
        for number in outer.iter() {
            let place = self.near.len();
            self.outer.push(number.min(u16::MAX as usize) as u16)?;
            self.root.own = self.root.own.with(place);
            if question.friends.has(number) {
                self.friends = self.friends.with(place);
            } else if question.giving.has(number) {
                self.giving = self.giving.with(place);
            }
            let near = match board.chain(number) {
                Some(chain) => places_of(&question.region, &chain.near.and(&question.region)),
                None => PlaceSet::empty(),
            };
            self.near.push(near)?;
            self.add_beside(near, place);
        }
        Ok(())
    }

    /// Notes that the place is beside all these.
    fn add_beside(&mut self, near: PlaceSet, place: usize) {
        for at in 0..self.points.len() {
            if near.has(at) && at < self.near.len() {
                self.near[at] = self.near[at].with(place);
            }
        }
    }

    /// The state on the board.
    pub fn root(&self) -> State {
        self.root
    }

    /// Whether stones are to be taken.
    pub fn is_death(&self) -> bool {
        !self.targets.is_empty()
    }

    /// How many points the region has.
    pub fn len(&self) -> usize {
        self.points.len()
    }

    /// How many chains are named.
    pub(crate) fn chains(&self) -> usize {
        self.outer.len()
    }

    /// The point of the board at this place of the region.
    pub fn point(&self, place: usize) -> Option<usize> {
        let point = self.points.get(place).copied()?;
        Some(point as usize)
    }

    /// The chain that is the `index`th of those named.
    pub(crate) fn chain(&self, index: usize) -> Option<usize> {
        let number = self.outer.get(index).copied()?;
        Some(number as usize)
    }

    /// The points of the region.
    pub fn all_points(&self) -> NumberSet {
        self.points_of(self.region)
    }

    /// The points of these places of the region.
    pub fn points_of(&self, places: PlaceSet) -> NumberSet {
        let mut points = NumberSet::empty();
        for place in 0..self.points.len() {
            if places.has(place) {
                points.insert(self.points[place] as usize);
            }
        }
        points
    }

    /// The places of the region where there is no stone.
    pub(crate) fn empty(&self, state: State) -> PlaceSet {
        self.region.minus(state.own).minus(state.other)
    }

    /// The places beside this one.
    pub(crate) fn near(&self, place: usize) -> PlaceSet {
        match self.near.get(place) {
            Some(near) => *near,
            None => PlaceSet::empty(),
        }
    }

    /// The places beside one of these.
    pub(crate) fn beside(&self, places: PlaceSet) -> PlaceSet {
        let mut found = PlaceSet::empty();
        let mut rest = places;
        for _ in 0..u64::MAX {
            let Some(place) = rest.take() else {
                break;
            };
            found = found.or(self.near(place));
        }
        found
    }

    /// The places that are joined with these through places of `within`, including these, and the places beside them.
    pub(crate) fn joined(&self, from: PlaceSet, within: PlaceSet) -> (PlaceSet, PlaceSet) {
        let mut found = from;
        let mut front = from;
        let mut near = PlaceSet::empty();
        for _ in 0..u64::MAX {
            let Some(place) = front.take() else {
                break;
            };
            let beside = self.near(place);
            let more = beside.and(within).minus(found);
            near = near.or(beside);
            found = found.or(more);
            front = front.or(more);
        }
        (found, near)
    }

    /// The other side's stones that can never be taken: they are joined to a point outside.
    pub fn rooted(&self, other: PlaceSet) -> PlaceSet {
        self.joined(other.and(self.edge), other).0
    }

    /// Whether a stone of the targets is off.
    pub(crate) fn is_taken(&self, state: State) -> bool {
        !self.targets.is_within(state.other)
    }

    /// Whether the loss of this component is sure, where stones are to be taken: no named chain is in it, nothing hostile beside
    /// it, and no stone that may really be gone.
    pub(crate) fn is_sure_loss(&self, component: PlaceSet, near: PlaceSet, state: State) -> bool {
        if !self.is_death() || !component.is_within(self.region) || component.meets(self.edge) {
            return false;
        }
        let beside = near.and(state.other);
        !self.joined(beside, state.other).0.meets(self.edge)
    }

    /// The other side's move at an empty place.
    pub(crate) fn others_move(&self, state: State, place: usize) -> Outcome {
        let stone = PlaceSet::of(place);
        let mut after = State {
            own: state.own,
            other: state.other.or(stone),
        };
        let left = self.empty(after);
        let mut rest = self.near(place).and(state.own);
        for _ in 0..MAX_PLACES {
            if rest.is_empty() {
                break;
            }
            let (component, near) = self.joined(rest.lowest(), state.own);
            rest = rest.minus(component);
            let stands = component.meets(self.friends.or(self.giving));
            if !stands && !near.meets(left) {
                if !self.is_sure_loss(component, near, state) {
                    return Outcome::Lost;
                }
                after.own = after.own.minus(component);
            }
        }
        self.after_suicide(after, stone)
    }

    /// The state where the other side has played this stone, and what it took is off: its own chain goes off if it has no liberty.
    fn after_suicide(&self, after: State, stone: PlaceSet) -> Outcome {
        let (chain, near) = self.joined(stone, after.other);
        if chain.meets(self.edge) || near.meets(self.empty(after)) {
            return Outcome::To(after);
        }
        if chain == stone {
            return Outcome::Nothing;
        }
        Outcome::To(State {
            own: after.own,
            other: after.other.minus(chain),
        })
    }

    /// The move of the side that answers at an empty place. `None` if its stones would have no liberty.
    pub fn own_move(&self, state: State, place: usize) -> Option<State> {
        let stone = PlaceSet::of(place);
        let mut after = State {
            own: state.own.or(stone),
            other: state.other,
        };
        let mut rest = self.near(place).and(state.other);
        for _ in 0..MAX_PLACES {
            if rest.is_empty() {
                break;
            }
            let (chain, near) = self.joined(rest.lowest(), state.other);
            rest = rest.minus(chain);
            if !chain.meets(self.edge) && !near.meets(self.empty(after)) {
                after.other = after.other.minus(chain);
            }
        }
        let (component, near) = self.joined(stone, after.own);
        if !component.meets(self.friends) && !near.meets(self.empty(after)) {
            return None;
        }
        Some(after)
    }
}

/// The places of these points of the region.
fn places_of(region: &NumberSet, points: &NumberSet) -> PlaceSet {
    let mut places = PlaceSet::empty();
    for point in points.iter() {
        places = places.with(region.rank(point));
    }
    places
}
