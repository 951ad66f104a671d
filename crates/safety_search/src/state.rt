//! The stones of both sides in a local game, and their moves.

use crate::place_set::PlaceSet;

/// The stones in the region, and the chains beside it that are named, which are always there.
#[derive(Clone, Copy, Debug, PartialEq, Eq, Hash)]
pub struct State {
    /// The stones of the side that answers, and of the other side.
    pub own: PlaceSet,
    pub other: PlaceSet,
}

/// What comes of a move of the other side.
#[derive(Clone, Copy, Debug)]
pub(crate) enum Outcome {
    /// It takes stones that are to stand.
    Lost,
    /// It changes nothing: a single stone takes itself off.
    Nothing,
    /// This state.
    To(State),
}
