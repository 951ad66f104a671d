//! How much is left to play.

use crate::board::Board;
use crate::life::LifeParts;
use crate::place_set::PlaceSet;
use crate::position::{Position, Side};

/// How much is left to play. Less is better. The first number is compared first, then the others.
#[derive(Clone, Copy, Debug, PartialEq, Eq, PartialOrd, Ord)]
pub struct Room {
    pub whole: u32,
    pub second: u32,
    pub third: u32,
}

impl Room {
    /// More than is ever left.
    pub fn most() -> Room {
        Room {
            whole: u32::MAX,
            second: u32::MAX,
            third: u32::MAX,
        }
    }
}

impl<S: PlaceSet> Board<S> {
    /// How much a living defender has left to do. First the sum of the points of the areas between his chains, less one for each
    /// area (if the attacker has lasting stones, only the empty points of the region), the attacker's moves, the defender's chains,
    /// and his stones that can be taken; then the attacker's moves alone.
    pub(crate) fn room_of_life(&self, position: Position<S>, parts: &mut LifeParts<S>) -> Room {
        let defender = position.defender;
        let moves = self.count_moves(position, Side::Attacker);
        let good = self.good(defender, parts);
        let whole = self
            .points_of_areas(position)
            .saturating_add(moves)
            .saturating_add(self.count_chains(defender))
            .saturating_add(defender.minus(good).len());
        Room {
            whole,
            second: moves,
            third: 0,
        }
    }

    fn points_of_areas(&self, position: Position<S>) -> u32 {
        let others = self.all.minus(position.defender);
        let playable = self.empty(position).and(self.region);
        let mut count: u32 = 0;
        let mut rest = others;
        for _ in 0..u64::MAX {
            let Some(at) = rest.take_first() else {
                return count;
            };
            let area = self.chain(others, at);
            rest = rest.minus(area);
            let own = if area.meets(self.lasting.attacker) {
                area.and(playable).len()
            } else {
                area.len().saturating_sub(1)
            };
            count = count.saturating_add(own);
        }
        count
    }

    fn count_chains(&self, stones: S) -> u32 {
        let mut count: u32 = 0;
        let mut rest = stones;
        for _ in 0..u64::MAX {
            let Some(at) = rest.take_first() else {
                return count;
            };
            rest = rest.minus(self.chain(stones, at));
            count = count.saturating_add(1);
        }
        count
    }

    /// How many moves of this side change anything, whatever has occurred before.
    pub fn count_moves(&self, position: Position<S>, side: Side) -> u32 {
        let playable = self.empty(position).and(self.region);
        let quiet = self.quiet(position).of(side).and(playable);
        let mut count = quiet.len();
        for at in playable.minus(quiet).places() {
            if self.after(position, side, at) != position {
                count = count.saturating_add(1);
            }
        }
        count
    }

    /// How much is left after the attacker's stone at this place, if the defender cannot have two eyes. First the sum of twice the
    /// fewest liberties of a chain with a target, the defender's moves that change anything, and one if the stone can still be
    /// taken; then the liberties; then the moves.
    pub fn room_of_death(&self, position: Position<S>, place: usize) -> Room {
        let moves = self.count_moves(position, Side::Defender);
        let liberties = self.fewest_liberties(position);
        let is_permanent = self.permanent(position.attacker, Side::Attacker).has(place);
        let loose = if is_permanent { 0 } else { 1 };
        Room {
            whole: liberties
                .saturating_mul(2)
                .saturating_add(moves)
                .saturating_add(loose),
            second: liberties,
            third: moves,
        }
    }

    /// The fewest liberties of a chain with a target that can be taken.
    fn fewest_liberties(&self, position: Position<S>) -> u32 {
        let empty = self.empty(position);
        let mut fewest: u32 = 99;
        for at in self.heads.and(position.defender).places() {
            let chain = self.chain(position.defender, at);
            if !chain.meets(self.lasting.defender) {
                fewest = fewest.min(self.beside(chain).and(empty).len());
            }
        }
        fewest
    }
}
