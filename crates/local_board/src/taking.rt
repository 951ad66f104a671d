//! Moves: what they take, and which take nothing.

use crate::board::Board;
use crate::place_set::PlaceSet;
use crate::position::{Position, Side};

/// What is known of the chains of a side that are beside empty places.
#[derive(Clone, Copy)]
struct Chains<S> {
    /// The liberties of chains that can be taken and have only one.
    last: S,
    /// Stones of all other chains, among them all that are beside an empty place.
    strong: S,
}

/// The stones of a chain that were looked at: all of them, unless the chain is seen to be strong before.
#[derive(Clone, Copy)]
struct Looked<S> {
    stones: S,
    /// Their liberties.
    liberties: S,
    /// Whether the chain has two liberties, or can never be taken.
    is_strong: bool,
}

impl<S: PlaceSet> Board<S> {
    /// The position after a stone of this side at the empty place, by the rules of capture and suicide. It is the same position if
    /// a single stone takes itself off.
    pub fn after(&self, position: Position<S>, side: Side, place: usize) -> Position<S> {
        let own = position.of(side).with(place);
        let other = position.of(side.other());
        let empty = self.all.minus(own).minus(other);
        let taken = self.taken_beside(place, other, empty, side.other());
        if !taken.is_empty() {
            return Position::made(side, own, other.minus(taken));
        }
        match self.chain_without_liberty(own, empty, place, side) {
            Some(chain) => Position::made(side, own.minus(chain), other),
            None => Position::made(side, own, other),
        }
    }

    /// The stones of this side's chains beside the place that have no liberty.
    fn taken_beside(&self, place: usize, stones: S, empty: S, side: Side) -> S {
        let mut taken = S::empty();
        let mut rest = self.near(place).and(stones);
        for _ in 0..u64::MAX {
            let Some(at) = rest.take_first() else {
                return taken;
            };
            if let Some(chain) = self.chain_without_liberty(stones, empty, at, side) {
                taken = taken.or(chain);
                rest = rest.minus(chain);
            }
        }
        taken
    }

    /// The chain of the stone at this place, if it has no liberty.
    fn chain_without_liberty(&self, own: S, empty: S, place: usize, side: Side) -> Option<S> {
        let lasting = self.lasting.of(side);
        if lasting.has(place) {
            return None;
        }
        let mut chain = S::empty().with(place);
        let mut front = chain;
        for _ in 0..u64::MAX {
            let near = self.all_beside_but(front, empty)?;
            front = near.and(own).minus(chain);
            if front.meets(lasting) {
                return None;
            }
            if front.is_empty() {
                return Some(chain);
            }
            chain = chain.or(front);
        }
        None
    }

    /// For each side, the empty places where its stone takes nothing and has a liberty: the stone is put down, and nothing else
    /// changes. Chains are looked at from their liberties, so on a full board most stones are not looked at.
    pub fn quiet(&self, position: Position<S>) -> Position<S> {
        let empty = self.empty(position);
        let (open, wide) = self.beside_one_and_several(empty);
        let attacker = self.chains(position, Side::Attacker, open, wide);
        let defender = self.chains(position, Side::Defender, open, wide);
        let closed = empty.minus(open);
        let closed_attacker = closed.minus(self.lasting.attacker);
        let closed_defender = closed.minus(self.lasting.defender);
        Position {
            attacker: empty
                .minus(defender.last)
                .minus(self.away_from(closed_attacker, attacker.strong)),
            defender: empty
                .minus(attacker.last)
                .minus(self.away_from(closed_defender, defender.strong)),
        }
    }

    /// Those of the places that have none of these stones beside them.
    fn away_from(&self, places: S, stones: S) -> S {
        let mut found = S::empty();
        for at in places.places() {
            if !self.near(at).meets(stones) {
                found = found.with(at);
            }
        }
        found
    }

    /// What is known of this side's chains. `open` has the places beside empty ones, and `wide` those beside several.
    fn chains(&self, position: Position<S>, side: Side, open: S, wide: S) -> Chains<S> {
        let own = position.of(side);
        let empty = self.empty(position);
        let mut last = S::empty();
        let mut strong = own.and(wide.or(self.lasting.of(side)));
        let mut rest = own.and(open).minus(strong);
        for _ in 0..u64::MAX {
            let Some(at) = rest.take_first() else {
                break;
            };
            let looked = self.look_at_chain(own, empty, strong, at);
            rest = rest.minus(looked.stones);
            if looked.is_strong {
                strong = strong.or(looked.stones);
            } else {
                last = last.or(looked.liberties);
            }
        }
        Chains { last, strong }
    }

    /// Looks at the stones of the chain at this place, the nearest first, until it has two liberties or one of the stones that are
    /// known to be strong.
    fn look_at_chain(&self, own: S, empty: S, strong: S, place: usize) -> Looked<S> {
        let mut stones = S::empty().with(place);
        let mut front = stones;
        let mut liberties = S::empty();
        for _ in 0..u64::MAX {
            let near = self.all_beside(front);
            liberties = liberties.or(near.and(empty));
            front = near.and(own).minus(stones);
            let is_strong = liberties.has_several() || front.meets(strong);
            if is_strong || front.is_empty() {
                return Looked {
                    stones,
                    liberties,
                    is_strong,
                };
            }
            stones = stones.or(front);
        }
        Looked {
            stones,
            liberties,
            is_strong: true,
        }
    }

    /// The position after a stone of this side at the empty place. `None` if nothing changes. `quiet` has places where a stone is
    /// put down and nothing else changes.
    pub fn played(
        &self,
        position: Position<S>,
        side: Side,
        place: usize,
        quiet: S,
    ) -> Option<Position<S>> {
        if quiet.has(place) {
            return Some(position.with(side, place));
        }
        let after = self.after(position, side, place);
        if after == position { None } else { Some(after) }
    }

    /// The key of that position, from the key of this one.
    pub fn played_key(
        &self,
        position: Position<S>,
        key: u64,
        side: Side,
        place: usize,
        quiet: S,
    ) -> Option<u64> {
        if quiet.has(place) {
            return Some(key ^ self.word(side, place));
        }
        let after = self.after(position, side, place);
        if after == position {
            return None;
        }
        Some(self.key_from(position, key, after))
    }

    /// The places where the attacker takes a target at once.
    pub fn takes(&self, position: Position<S>) -> S {
        let empty = self.empty(position);
        let mut found = S::empty();
        let lasting = self.lasting.defender;
        for at in self.heads.and(position.defender).minus(lasting).places() {
            let looked = self.look_at_chain(position.defender, empty, lasting, at);
            if !looked.is_strong {
                found = found.or(looked.liberties.and(self.region));
            }
        }
        found
    }
}
