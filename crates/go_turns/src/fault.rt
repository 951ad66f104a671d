//! Why a turn is refused.

use go_points::Point;
use thiserror::Error;

/// Why a turn, a setup or an undo was refused, in the order in which a record checks. A refused call leaves the record as it was.
#[derive(Clone, Copy, Debug, PartialEq, Eq, Error)]
pub enum TurnFault {
    #[error("off the board")]
    OffBoard,
    #[error("occupied")]
    Occupied,
    /// The colouring at this place of the history is the same.
    #[error("repeats {earlier}")]
    Repeats { earlier: usize },
    /// The least point whose stone does not reach empty.
    #[error("no liberty")]
    NoLiberty { point: Point },
    #[error("cannot undo")]
    CannotUndo,
    #[error("out of memory")]
    Memory,
}
