//! Why a tree is refused, and why a claim is not expanded.

use go_points::Turn;
use thiserror::Error;

/// Why a node of an answer tree is faulty.
#[derive(Clone, Copy, Debug, PartialEq, Eq, Error)]
pub enum AuditWhy {
    /// B and W together do not have exactly one value, or it is not a turn of the board, or the node has AB, AW or AE.
    #[error("no turn")]
    NoTurn,
    /// The turn is not the mover's.
    #[error("wrong colour")]
    WrongColour,
    /// The point is occupied or outside the region, or the move repeats a colouring.
    #[error("turn barred")]
    TurnBarred,
    /// At the other side's move no child has this legal turn.
    #[error("reply missing")]
    ReplyMissing { due: Turn },
    /// At the other side's move an earlier child of the same node has the same turn.
    #[error("reply twice")]
    ReplyTwice,
    /// There is no child or the game is over, and the winner of the first line has not won.
    #[error("not won")]
    NotWon,
    /// The game is over before the turn.
    #[error("after the end")]
    AfterTheEnd,
    /// The winner of the first line is to move, and there are several children.
    #[error("several answers")]
    SeveralAnswers,
    /// Memory was refused.
    #[error("out of memory")]
    Memory,
}

/// The first fault of a tree: the number of the node, counted from 0 at the root, and why it is faulty.
#[derive(Clone, Copy, Debug, PartialEq, Eq, Error)]
#[error("{why} at node {node}")]
pub struct AuditFault {
    pub node: usize,
    pub why: AuditWhy,
}

/// Why a claim is not expanded.
#[derive(Clone, Copy, Debug, PartialEq, Eq, Error)]
pub enum Expand {
    /// The tree has more turns than were allowed.
    #[error("tree too large")]
    TooLarge = 1,
    #[error("out of memory")]
    Memory = 2,
}
