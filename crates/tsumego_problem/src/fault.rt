//! Why a tree gives no problem.

use thiserror::Error;

/// A property of which a node may have only one value.
#[derive(Clone, Copy, Debug, PartialEq, Eq, Error)]
pub enum SingleProperty {
    #[error("B")]
    B,
    #[error("W")]
    W,
    #[error("PL")]
    PL,
}

/// Why the turn of a record cannot be made.
#[derive(Clone, Copy, Debug, PartialEq, Eq, Error)]
pub enum TurnFaultCause {
    #[error("occupied")]
    Occupied,
    /// The place of the equal colouring in the history.
    #[error("repeats {earlier}")]
    Repeats { earlier: usize },
}

/// Why a tree gives no problem, in the order in which the checks are made. Nodes are numbered from 0 in the order of their
/// semicolons.
#[derive(Clone, Copy, Debug, PartialEq, Eq, Error)]
pub enum ProblemFault {
    /// The root's GM is not the single value `1`.
    #[error("game")]
    Game,
    /// The root's SZ is not a single size of a board.
    #[error("size")]
    Size,
    /// No node of the main line has TR or SQ.
    #[error("no problem node")]
    NoProblemNode,
    /// B, W or PL has several values.
    #[error("many values of {property}")]
    ManyValues {
        property: SingleProperty,
        node: usize,
    },
    /// A value is not a point, a rectangle or a turn of the board.
    #[error("bad point")]
    BadPoint {
        node: usize,
    },
    /// Two of AB, AW and AE share a point.
    #[error("shared point")]
    SharedPoint {
        node: usize,
    },
    /// A move beside a setup.
    #[error("mixed")]
    MixedNode {
        node: usize,
    },
    /// B beside W.
    #[error("both colours")]
    BothColours {
        node: usize,
    },
    /// A move that cannot be made.
    #[error("illegal turn: {cause}")]
    IllegalTurn {
        node: usize,
        cause: TurnFaultCause,
    },
    /// A setup leaves a chain without liberty.
    #[error("no liberty")]
    NoLiberty {
        node: usize,
    },
    /// No targets, an empty one, or stones of two colours.
    #[error("bad targets")]
    BadTargets {
        node: usize,
    },
    /// Two or more passes come just before the problem.
    #[error("ended")]
    Ended {
        node: usize,
    },
    /// PL has a value that is no colour.
    #[error("bad colour")]
    BadColour {
        node: usize,
    },
    /// The history is longer than a problem's may be.
    #[error("long history")]
    LongHistory {
        node: usize,
    },
    #[error("out of memory")]
    Memory,
}
