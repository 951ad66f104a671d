//! What the shape of a state says: which stones can be taken at once, and how much is missing until its owner may pass for ever.

use crate::local_game::LocalGame;
use crate::place_set::PlaceSet;
use crate::state::State;

/// The greatest number of components, and of areas, that are looked at.
const ROOM: usize = 48;

/// How far an area is that is not there.
const NO_AREA: u32 = 8;

/// How much farther an area is that has a point outside beside it.
const OPEN_AREA: u32 = 2;

/// Stones of one side that are joined, with the places beside them; or an area between them, with nothing beside it.
#[derive(Clone, Copy)]
struct Part {
    places: PlaceSet,
    near: PlaceSet,
}

/// Components or areas. They are found anew for each state, in the same memory.
#[derive(Clone, Copy)]
pub(crate) struct Parts {
    parts: [Part; ROOM],
    count: usize,
}

/// What the shape says, with the other side to move.
#[derive(Clone, Copy)]
pub(crate) enum Outlook {
    /// This component, which is to stand, can be taken at once.
    Falls(PlaceSet),
    /// None can.
    Open(Distance),
}

/// How far a state is from where each side wants it.
#[derive(Clone, Copy)]
pub(crate) struct Distance {
    /// How many areas are missing until the owner may pass for ever, and how many points until it has them, roughly.
    pub(crate) missing: u32,
    pub(crate) far: u32,
    /// The fewest liberties of a component that is to stand, with one more where it has others in another region.
    pub(crate) liberties: u32,
}

impl Parts {
    pub(crate) fn none() -> Parts {
        let part = Part {
            places: PlaceSet::empty(),
            near: PlaceSet::empty(),
        };
        Parts {
            parts: [part; ROOM],
            count: 0,
        }
    }

    /// Finds the parts that these places make. Those for which there is no room are left out, and then the result is `false`.
    fn find(&mut self, game: &LocalGame, places: PlaceSet) -> bool {
        self.count = 0;
        let mut rest = places;
        for _ in 0..ROOM {
            if rest.is_empty() {
                break;
            }
            let (part, near) = game.joined(rest.lowest(), places);
            rest = rest.minus(part);
            if self.count < ROOM {
                self.parts[self.count] = Part { places: part, near };
                self.count += 1;
            }
        }
        rest.is_empty()
    }

    /// The component of stones that can be taken at once, although it is to stand.
    fn falling(&self, game: &LocalGame, state: State) -> Option<PlaceSet> {
        let empty = game.empty(state);
        for index in 0..ROOM {
            if index >= self.count {
                return None;
            }
            let part = self.parts[index];
            let liberties = part.near.and(empty);
            let falls = if part.places.meets(game.friends) {
                false
            } else if part.places.meets(game.giving) {
                liberties.is_empty()
            } else {
                !liberties.has_several() && !game.is_sure_loss(part.places, part.near, state)
            };
            if falls {
                return Some(part.places);
            }
        }
        None
    }

    /// How far all components are from rest, with these areas, and the weakest from being taken.
    fn distance(&self, game: &LocalGame, empty: PlaceSet, areas: &Parts) -> Distance {
        let mut missing: u32 = 0;
        let mut far: u32 = 0;
        let mut liberties = u32::MAX;
        for index in 0..ROOM {
            if index < self.count && !self.parts[index].places.meets(game.friends) {
                let part = self.parts[index];
                let wants_one = part.places.meets(game.giving);
                let (have, best, second) = areas.beside(game, empty, part.near);
                let wanted: u32 = if wants_one { 1 } else { 2 };
                missing = missing.saturating_add(wanted.saturating_sub(have));
                far = far.saturating_add(best);
                if !wants_one {
                    far = far.saturating_add(second);
                }
                // It falls without a liberty, any other with its last.
                let spare = if wants_one { 1 } else { 0 };
                liberties = liberties.min(part.near.and(empty).len().saturating_add(spare));
            }
        }
        Distance {
            missing,
            far,
            liberties,
        }
    }

    /// Of the areas beside a component, which has these places beside it: how many are whole, and how far the two best are from
    /// that.
    fn beside(&self, game: &LocalGame, empty: PlaceSet, near: PlaceSet) -> (u32, u32, u32) {
        let mut have: u32 = 0;
        let mut best = NO_AREA;
        let mut second = NO_AREA;
        for index in 0..ROOM {
            if index >= self.count {
                break;
            }
            let area = self.parts[index].places;
            if area.meets(empty) && area.meets(near) {
                let open = if area.meets(game.edge) { OPEN_AREA } else { 0 };
                let far = area.minus(near).len().saturating_add(open);
                if far == 0 {
                    have = have.saturating_add(1);
                }
                if far < best {
                    second = best;
                    best = far;
                } else if far < second {
                    second = far;
                }
            }
        }
        (have, best, second)
    }
}

/// The parts of a state: the components of its owner's stones, and the areas between them.
#[derive(Clone, Copy)]
pub(crate) struct Scratch {
    components: Parts,
    areas: Parts,
}

impl Scratch {
    pub(crate) fn none() -> Scratch {
        Scratch {
            components: Parts::none(),
            areas: Parts::none(),
        }
    }

    /// What the shape says, with the other side to move.
    pub(crate) fn outlook(&mut self, game: &LocalGame, state: State) -> Outlook {
        if !self.components.find(game, state.own) {
            return Outlook::Falls(PlaceSet::empty());
        }
        if let Some(component) = self.components.falling(game, state) {
            return Outlook::Falls(component);
        }
        if game.is_death() {
            return Outlook::Open(Distance {
                missing: 1,
                far: 0,
                liberties: 1,
            });
        }
        Outlook::Open(self.find_distance(game, state))
    }

    /// How far the state is from where each side wants it, whoever is to move.
    pub(crate) fn distance(&mut self, game: &LocalGame, state: State) -> Distance {
        let _found = self.components.find(game, state.own);
        self.find_distance(game, state)
    }

    fn find_distance(&mut self, game: &LocalGame, state: State) -> Distance {
        let _found = self.areas.find(game, game.region.minus(state.own));
        self.components
            .distance(game, game.empty(state), &self.areas)
    }
}
