//! One state of the line of play that is searched, with its children.

use crate::numbers::weighed;
use go_points::Colour;
use local_board::{PlaceSet, Position, Side, Step};
use pn_table::Key;
use state_proofs::{Count, MoverNumbers, Standing, Thresholds, key_after_move, key_after_pass};

/// A state: the places of its stones, and its key.
#[derive(Clone, Copy)]
pub(crate) struct State<S> {
    pub(crate) position: Position<S>,
    pub(crate) key: Key,
}

/// Why a state is settled.
#[derive(Clone, Copy, Debug, PartialEq, Eq)]
pub(crate) enum Reason {
    /// The game is over there.
    Over,
    /// This proof holds there.
    Proof(u32),
    /// The defender passes for the second time.
    Passes,
    /// The attacker takes a target at once.
    Takes,
    /// The defender lives by his shape.
    Alive,
    /// The defender cannot have two eyes.
    Dead,
    /// The mover has a turn after which the defender lives by his shape, or cannot have two eyes.
    Next,
}

/// What is known of a child, as the mover of the state above sees it.
#[derive(Clone, Copy)]
pub(crate) enum Outcome {
    Open(MoverNumbers),
    Wins(Reason),
    Loses(Reason),
}

/// A state one turn further.
#[derive(Clone, Copy)]
pub(crate) struct Child {
    pub(crate) step: Step,
    pub(crate) key: Key,
    pub(crate) outcome: Outcome,
    /// How many points are left there where the defender could have an eye, if that was asked.
    pub(crate) eye_points: Option<u8>,
    /// How unlikely the turn is to win, in eighths: the number of the child is multiplied by this.
    pub(crate) weight: u32,
}

/// A state of the line. Its children come after those of the states above it, in one list for all.
#[derive(Clone, Copy)]
pub(crate) struct Frame<S> {
    pub(crate) state: State<S>,
    /// The turn before it.
    pub(crate) last: Step,
    pub(crate) thresholds: Thresholds,
    /// The place of the first child.
    pub(crate) first: usize,
    /// The place of the child that is worked on.
    pub(crate) current: usize,
    /// Whether the past bars a move.
    pub(crate) is_barred: bool,
}

/// The place of a stone of the attacker that the first state does not have, and the second has.
pub(crate) fn place_added<S: PlaceSet>(before: &State<S>, after: &State<S>) -> Option<usize> {
    let had = before.position.attacker;
    let has = after.position.attacker;
    has.minus(had).first()
}

/// What these children say of their state.
pub(crate) fn standing_of(children: &[Child]) -> Standing {
    let mut count = Count::none();
    for place in 0..children.len() {
        match children[place].outcome {
            Outcome::Wins(_) => return Standing::Wins,
            Outcome::Loses(_) => {}
            Outcome::Open(numbers) => {
                let value = weighed(numbers, children[place].weight);
                count.add(place, numbers, value);
            }
        }
    }
    count.standing()
}

/// The key of a state after this turn, which leads to this position.
pub(crate) fn after_step(key: Key, step: Step, position: u64) -> Key {
    match step {
        Step::Pass => key_after_pass(key),
        Step::At(_) => key_after_move(key, position),
    }
}

/// The side of this colour, if the attacker has that one.
pub(crate) fn side_of(attacker: Colour, colour: Colour) -> Side {
    if colour == attacker {
        Side::Attacker
    } else {
        Side::Defender
    }
}

/// The outcome of a settled child.
pub(crate) fn outcome_by(mover: Colour, winner: Colour, reason: Reason) -> Outcome {
    if winner == mover {
        Outcome::Wins(reason)
    } else {
        Outcome::Loses(reason)
    }
}
