//! Positions at the places of a problem.

use crate::place_set::PlaceSet;

/// The sides of a problem.
#[derive(Clone, Copy, Debug, PartialEq, Eq)]
pub enum Side {
    /// The side that wants to take a target.
    Attacker,
    /// The side that wants to keep the targets.
    Defender,
}

impl Side {
    pub fn other(self) -> Side {
        match self {
            Side::Attacker => Side::Defender,
            Side::Defender => Side::Attacker,
        }
    }
}

/// A turn at the places of a problem.
#[derive(Clone, Copy, Debug, PartialEq, Eq)]
pub enum Step {
    At(u16),
    Pass,
}

/// The places of each side: its stones, or what is true of them.
#[derive(Clone, Copy, Debug, PartialEq, Eq)]
pub struct Position<S> {
    pub attacker: S,
    pub defender: S,
}

impl<S: PlaceSet> Position<S> {
    /// Neither side has a place.
    pub fn empty() -> Position<S> {
        Position {
            attacker: S::empty(),
            defender: S::empty(),
        }
    }

    /// The places of this side.
    pub fn of(self, side: Side) -> S {
        match side {
            Side::Attacker => self.attacker,
            Side::Defender => self.defender,
        }
    }

    /// Whether the side has this place.
    pub fn has(&self, side: Side, place: usize) -> bool {
        match side {
            Side::Attacker => self.attacker.has(place),
            Side::Defender => self.defender.has(place),
        }
    }

    /// The position in which the side has the places `own`, and the other side the places `other`.
    pub fn made(side: Side, own: S, other: S) -> Position<S> {
        match side {
            Side::Attacker => Position {
                attacker: own,
                defender: other,
            },
            Side::Defender => Position {
                attacker: other,
                defender: own,
            },
        }
    }

    /// The position with one more stone.
    pub fn with(self, side: Side, place: usize) -> Position<S> {
        Position::made(side, self.of(side).with(place), self.of(side.other()))
    }

    /// A number that is well mixed. Equal positions have the same number.
    pub(crate) fn mixed(self) -> u64 {
        self.attacker.mixed() ^ self.defender.mixed() >> 7
    }

    /// The places where either side has a stone.
    pub fn stones(self) -> S {
        self.attacker.or(self.defender)
    }
}
