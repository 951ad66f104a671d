//! Groups that live by their shape whatever the attacker plays, even if their owner always passes.
//!
//! This is Benson's test, with one change: all points of an eye, not only its empty ones, have to be beside the chain. Suicide of
//! several stones is legal here, so an attacker could fill an eye, clear it by suicide, and fill it again leaving open another
//! point that is not beside the chain.

use crate::board::Board;
use crate::place_set::PlaceSet;
use crate::position::Side;
use std::alloc::Global;

/// The greatest number of eyes, and of chains, that are looked at.
const ROOM: usize = 40;

/// The greatest number of points of an eye.
const MAX_EYE: u32 = 12;

/// An area between the defender's chains that can be an eye, or a chain that has no lasting liberty.
#[derive(Clone, Copy)]
struct Part<S> {
    places: S,
    /// The places beside it.
    beside: S,
    /// Whether it is still thought to live, or to be an eye of something that lives.
    is_good: bool,
}

/// Eyes or chains, at most `ROOM`.
#[derive(Drop)]
struct Parts<S> {
    parts: Vec<Part<S>>,
}

/// The eyes and the chains of one question. They are made anew for each, in the same memory.
#[derive(Drop)]
pub(crate) struct LifeParts<S> {
    eyes: Parts<S>,
    chains: Parts<S>,
}

impl<S: PlaceSet> LifeParts<S> {
    pub(crate) fn none(alloc: Global) -> LifeParts<S> {
        LifeParts {
            eyes: Parts::none(alloc),
            chains: Parts::none(alloc),
        }
    }
}

impl<S: PlaceSet> Parts<S> {
    fn none(alloc: Global) -> Parts<S> {
        Parts {
            parts: Vec::new(alloc),
        }
    }

    fn clear(&mut self) {
        self.parts.clear();
    }

    /// Adds one more, and returns whether there was room. If memory is refused, there was none.
    fn add(&mut self, places: S, beside: S) -> bool {
        if self.parts.len() >= ROOM {
            return false;
        }
        let part = Part {
            places,
            beside,
            is_good: true,
        };
        self.parts.push(part).is_ok()
    }

    /// Whether two good parts have all their places among these.
    fn has_two_within(&self, places: S) -> bool {
        let mut has_one = false;
        for part in self.parts.as_slice() {
            if part.is_good && part.places.is_within(places) {
                if has_one {
                    return true;
                }
                has_one = true;
            }
        }
        false
    }

    /// Marks the parts beside these places as bad.
    fn spoil_beside(&mut self, places: S) {
        for index in 0..self.parts.len() {
            if self.parts[index].beside.meets(places) {
                self.parts[index].is_good = false;
            }
        }
    }
}

/// What is known of the defender's stones when their chains have been found.
#[derive(Clone, Copy)]
struct Stones<S> {
    /// The stones on chains with a lasting liberty.
    lasting: S,
    /// The places beside stones, and stones.
    near: S,
}

impl<S: PlaceSet> Board<S> {
    /// Whether no target can ever be taken, whatever the attacker plays: each is on a chain with a lasting liberty, or on one of a
    /// set of chains each of which has two eyes that only chains of the set surround.
    pub(crate) fn lives(&self, defender: S, parts: &mut LifeParts<S>) -> bool {
        let Some(stones) = self.find_chains(defender, &mut parts.chains) else {
            return false;
        };
        let asked = self.heads.and(defender).minus(stones.lasting);
        asked.is_empty()
            || self.may_have_eyes(defender, asked, &parts.chains)
                && self.find_eyes(defender, stones, &mut parts.eyes)
                && self.are_good(asked, parts)
    }

    /// The defender's stones that can never be taken.
    pub(crate) fn good(&self, defender: S, parts: &mut LifeParts<S>) -> S {
        let Some(stones) = self.find_chains(defender, &mut parts.chains) else {
            return self.permanent(defender, Side::Defender);
        };
        if self.find_eyes(defender, stones, &mut parts.eyes) && self.are_good(S::empty(), parts) {
            stones.lasting.or(good_places(&parts.chains))
        } else {
            stones.lasting
        }
    }

    /// Finds the defender's chains without a lasting liberty. `None` if they are more than are looked at.
    fn find_chains(&self, defender: S, chains: &mut Parts<S>) -> Option<Stones<S>> {
        chains.clear();
        let mut stones = Stones {
            lasting: S::empty(),
            near: S::empty(),
        };
        let mut rest = defender;
        for _ in 0..u64::MAX {
            let Some(at) = rest.take_first() else {
                return Some(stones);
            };
            let (chain, near) = self.chain_and_near(defender, at);
            rest = rest.minus(chain);
            stones.near = stones.near.or(near);
            if chain.meets(self.lasting.defender) {
                stones.lasting = stones.lasting.or(chain);
            } else if !chains.add(chain, near.minus(chain)) {
                return None;
            }
        }
        None
    }

    /// Whether each chain with one of these stones may have two eyes.
    fn may_have_eyes(&self, defender: S, asked: S, chains: &Parts<S>) -> bool {
        for chain in chains.parts.as_slice() {
            if chain.places.meets(asked) && !self.may_have_two_eyes(defender, chain.beside) {
                return false;
            }
        }
        true
    }

    /// Whether two areas can be eyes of a chain that has these places beside it: all points of an eye are among them, and beside
    /// the eye are only stones of the defender.
    fn may_have_two_eyes(&self, defender: S, beside: S) -> bool {
        let own = beside.minus(self.lasting.attacker);
        let eyes = own.minus(self.connected(self.open_places(own, defender), own));
        match eyes.first() {
            Some(at) => self.chain(eyes, at) != eyes,
            None => false,
        }
    }

    /// Those of these places that have others beside them than these and the defender's stones.
    fn open_places(&self, places: S, defender: S) -> S {
        let closed = places.or(defender);
        let mut found = S::empty();
        for at in places.places() {
            if !self.near(at).is_within(closed) {
                found = found.with(at);
            }
        }
        found
    }

    /// Finds the areas that can be eyes: all their points are beside stones of the defender. One of them is empty, since stones of the
    /// attacker that filled an area would have no liberty. Returns whether there are two areas or more, and no more than are looked
    /// at.
    fn find_eyes(&self, defender: S, stones: Stones<S>, eyes: &mut Parts<S>) -> bool {
        eyes.clear();
        let candidates = stones.near.minus(defender).minus(self.lasting.attacker);
        let mut rest = candidates;
        for _ in 0..u64::MAX {
            let Some(at) = rest.take_first() else {
                break;
            };
            let (area, near) = self.chain_and_near(candidates, at);
            rest = rest.minus(area);
            let beside = near.minus(area);
            if beside.is_within(defender) && area.len() <= MAX_EYE {
                if !eyes.add(area, beside) {
                    return false;
                }
            }
        }
        eyes.parts.len() >= 2
    }

    /// Leaves out the chains that do not have two eyes, until all that are left have. Returns whether those with the stones that are
    /// asked about are left.
    fn are_good(&self, asked: S, parts: &mut LifeParts<S>) -> bool {
        for _ in 0..=ROOM {
            match spoil_chains(&mut parts.chains, &mut parts.eyes, asked) {
                Some(true) => {}
                Some(false) => return true,
                None => return false,
            }
        }
        false
    }
}

/// Marks the chains that do not have two eyes as bad, and the eyes beside them. Returns whether there were any, or `None` if one of
/// them has a stone that is asked about.
fn spoil_chains<S: PlaceSet>(chains: &mut Parts<S>, eyes: &mut Parts<S>, asked: S) -> Option<bool> {
    let mut has_changed = false;
    for index in 0..chains.parts.len() {
        let chain = chains.parts[index];
        if chain.is_good && !eyes.has_two_within(chain.beside) {
            if chain.places.meets(asked) {
                return None;
            }
            chains.parts[index].is_good = false;
            has_changed = true;
            eyes.spoil_beside(chain.places);
        }
    }
    Some(has_changed)
}

/// The places of the good parts.
fn good_places<S: PlaceSet>(parts: &Parts<S>) -> S {
    let mut found = S::empty();
    for part in parts.parts.as_slice() {
        if part.is_good {
            found = found.or(part.places);
        }
    }
    found
}
