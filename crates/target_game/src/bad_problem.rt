//! Why there is no such problem.

use thiserror::Error;

/// Why there is no such problem, in the order in which the checks are made.
#[derive(Clone, Copy, Debug, PartialEq, Eq, Error)]
pub enum BadProblem {
    /// A colouring of another size than the first, or a target or a point of the region off the board.
    #[error("other size")]
    OtherSize = 7,
    /// No colouring is at the place. An empty history is always refused with this.
    #[error("bad place")]
    BadPlace = 6,
    /// No targets, an empty one, or stones of two colours.
    #[error("bad targets")]
    BadTargets = 1,
    /// Two passes or more.
    #[error("ended")]
    Ended = 2,
    #[error("empty region")]
    EmptyRegion = 3,
    /// More than `MAX_HISTORY` colourings.
    #[error("long history")]
    LongHistory = 4,
    /// A colouring of the history with a stone that does not reach empty.
    #[error("no liberty")]
    NoLiberty = 5,
    /// A colouring occurs twice in the history.
    #[error("repeated")]
    Repeated = 8,
}
